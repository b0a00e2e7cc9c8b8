ghost use Rattle.std.specs.Prelude.{◌≡◌, ℕ, List, ◌≤◌, ◌<◌, ◌+◌, ◌^◌, IfOk, IfErr, OnOk, Some, None, nat_lt, length, vec_len, if◌then◌else◌};
ghost use Rattle.std.specs.Option.{option_map, option_map_or, option_or};
ghost use Rattle.guest_asm.specs.Assemble.{IsAssembled, IsFaultOf, number_at, number_kind, statement_kind, statement_piece};
ghost use Rattle.guest_asm.specs.Facts.{IsInRange};
ghost use Rattle.guest_asm.specs.Labels.{line_size, size_by, size_placed};
ghost use Rattle.guest_asm.specs.Listing.{IsListingOf};
ghost use Rattle.guest_asm.specs.Mnemonic.{form_of};
ghost use Rattle.guest_asm.specs.Parts.{target_value};
ghost use Rattle.guest_asm.specs.Bytes.{size_of};
ghost use Rattle.guest_asm.specs.Steps.{FitsForm, IsFaultAt, PutsAny, kind_by, piece_by, piece_placed, place_in, size_of_placed, stood_earlier};

use crate::labels::{Labels, Spot, labels_of, size_placed};
use crate::line::{line_of, lines_of};
use crate::operand::Target;
use crate::piece::put_piece;
use crate::placed::Placed;
use crate::statement::operands_of;
use crate::text::{first_word, rest_of};
use crate::{AsmFault, AsmKind, Mnemonic};
use ram_block::MAX_RAM;
use std::alloc::Global;

/// The most bytes of a text.
pub const MAX_TEXT: usize = 1_048_576;

/// The most bytes that a text may assemble to: no machine has RAM for more.
pub const MAX_ASSEMBLED: usize = MAX_RAM as usize;

/// The bytes that a text assembles to, or its first wrong line and what is wrong with it.
pub fn assemble(alloc: Global, text: &[u8]) -> Result<Vec<u8>, AsmFault>
    requires { length text.now ≤ MAX_TEXT }
    ensures assembled { IfOk result (λ bytes. IsAssembled text.now bytes.items) }
    ensures within { IfOk result (λ bytes. vec_len bytes ≤ MAX_ASSEMBLED) }
    ensures fault { IfErr result (IsFaultOf text.now) }
    ensures listed { IfOk result (λ made. (bytes : List ℕ) → IsListingOf text.now bytes → made.items ≡ bytes) }
    ensures takes_listings { IfErr result (λ fault. (bytes : List ℕ) → IsListingOf text.now bytes → fault ≡ AsmFault.NoMemory) }
{
    let Ok(lines) = lines_of(alloc, text) else {
        return Err(AsmFault::NoMemory);
    };
    let Ok(labels) = labels_of(alloc, &lines) else {
        return Err(AsmFault::NoMemory);
    };
    let mut bytes = Vec::new(alloc);
    for (i, line) in lines.iter().enumerate() {
        put_line(&mut bytes, &labels, i, *line)?;
    }
    Ok(bytes)
}

// Puts what a line places, or says what is wrong with it.
fn put_line<'a>(
    bytes: &mut Vec<u8>,
    labels: &Labels<'a>,
    i: usize,
    text: &'a [u8],
) -> Result<(), AsmFault>
    requires line { i < 2 ^ 31 }
    requires room { vec_len bytes.old ≤ MAX_ASSEMBLED }
    ensures right { OnOk result (kind_by labels.now i (vec_len bytes.old) text.now ≡ None) }
    ensures piece { OnOk result (PutsAny (piece_by labels.now (vec_len bytes.old) text.now) bytes.old.items bytes.new.items) }
    ensures len { OnOk result (vec_len bytes.new ≡ vec_len bytes.old + line_size text.now) }
    ensures room { OnOk result (vec_len bytes.new ≤ MAX_ASSEMBLED) }
    ensures wrong { IfErr result (IsFaultAt i (kind_by labels.now i (vec_len bytes.old) text.now)) }
{
    let line = i as u32 + 1;
    match placed_by(labels, i, bytes.len(), text) {
        Err(kind) => Err(AsmFault::Line { line, kind }),
        Ok(None) => Ok(()),
        Ok(Some(placed)) => {
            match put_piece(bytes, placed.mnemonic, placed.registers, placed.number) {
                Ok(()) => Ok(()),
                Err(_) => Err(AsmFault::NoMemory),
            }
        }
    }
}

// What a line places, or what is wrong with it.
fn placed_by<'a>(
    labels: &Labels<'a>,
    i: usize,
    place: usize,
    text: &'a [u8],
) -> Result<Option<Placed>, AsmKind>
    requires { place ≤ MAX_ASSEMBLED }
    ensures right { OnOk result (kind_by labels.now i place text.now ≡ None) }
    ensures piece { IfOk result (λ placed. piece_by labels.now place text.now ≡ option_map piece_placed placed) }
    ensures size { IfOk result (λ placed. line_size text.now ≡ option_map_or size_of_placed placed 0) }
    ensures room { OnOk result (place + line_size text.now ≤ MAX_ASSEMBLED) }
    ensures wrong { IfErr result (λ kind. kind_by labels.now i place text.now ≡ Some kind) }
{
    let parts = line_of(text);
    if let Some(name) = parts.label
        && stands_earlier(labels, i, name)
    {
        return Err(AsmKind::Twice);
    }
    placed_at(labels, place, parts.statement)
}

// What a statement at a place places, or what is wrong with it, too many bytes among that.
#[tactic(auto, using(crate::proofs::Empty::empty_kind, crate::proofs::Empty::empty_piece, crate::proofs::Empty::empty_size))]
fn placed_at<'a>(
    labels: &Labels<'a>,
    place: usize,
    statement: &'a [u8],
) -> Result<Option<Placed>, AsmKind>
    requires { place ≤ MAX_ASSEMBLED }
    ensures right { OnOk result (statement_kind (place_in labels.now) place statement.now ≡ None) }
    ensures piece { IfOk result (λ placed. statement_piece (place_in labels.now) place statement.now ≡ option_map piece_placed placed) }
    ensures size { IfOk result (λ placed. size_placed statement.now ≡ option_map_or size_of_placed placed 0) }
    ensures room { OnOk result (place + size_placed statement.now ≤ MAX_ASSEMBLED) }
    ensures wrong { IfErr result (λ kind. option_or (statement_kind (place_in labels.now) place statement.now) (if nat_lt MAX_ASSEMBLED (place + size_placed statement.now) then Some AsmKind.TooLarge else None) ≡ Some kind) }
{
    if statement.is_empty() {
        return Ok(None);
    }
    let placed = placed_statement(labels, place, statement)?;
    if place + placed.mnemonic.size(placed.number) > MAX_ASSEMBLED {
        return Err(AsmKind::TooLarge);
    }
    Ok(Some(placed))
}

// Whether a label stands on a line before this one.
fn stands_earlier<'a>(labels: &Labels<'a>, i: usize, name: &'a [u8]) -> bool
    ensures { result ≡ stood_earlier labels.now i name.now }
{
    match labels.get(&name) {
        Some(spot) => spot.line < i,
        None => false,
    }
}

// A statement at a place, or what is wrong with it.
#[tactic(auto, unfolding(crate::specs::Assemble::statement_kind, crate::specs::Assemble::statement_piece, crate::specs::Labels::size_placed))]
fn placed_statement<'a>(
    labels: &Labels<'a>,
    place: usize,
    statement: &'a [u8],
) -> Result<Placed, AsmKind>
    requires some { 0 < length statement.now }
    requires place { place ≤ MAX_ASSEMBLED }
    ensures right { IfOk result (λ placed. statement_kind (place_in labels.now) place statement.now ≡ None) }
    ensures piece { IfOk result (λ placed. statement_piece (place_in labels.now) place statement.now
        ≡ Some (piece_placed placed)) }
    ensures size { IfOk result (λ placed. size_placed statement.now ≡ size_of_placed placed) }
    ensures wrong { IfErr result (λ kind. statement_kind (place_in labels.now) place statement.now ≡ Some kind) }
{
    let Some(mnemonic) = Mnemonic::named(first_word(statement)) else {
        return Err(AsmKind::Mnemonic);
    };
    let Some(operands) = operands_of(mnemonic.form(), rest_of(statement)) else {
        return Err(AsmKind::Syntax);
    };
    let Some(registers) = operands.registers() else {
        return Err(AsmKind::Register);
    };
    let number = number_at(labels, place, mnemonic, operands.target())?;
    Ok(Placed {
        mnemonic,
        registers,
        number,
    })
}

// The number that a statement at a place works with.
#[tactic(auto, using(crate::proofs::Empty::zero_in_range, crate::proofs::Empty::size_of_jump))]
fn number_at<'a>(
    labels: &Labels<'a>,
    place: usize,
    mnemonic: Mnemonic,
    target: Option<Target<'a>>,
) -> Result<i128, AsmKind>
    requires place { place ≤ MAX_ASSEMBLED }
    requires label { FitsForm (form_of mnemonic) (option_map target_value target) }
    ensures number { IfOk result (λ n.
        number_at (place_in labels.now) place (option_map target_value target.entry) ≡ Some n) }
    ensures right { IfOk result (λ n.
        number_kind (place_in labels.now) place mnemonic (option_map target_value target.entry) ≡ None) }
    ensures in_range { IfOk result (IsInRange mnemonic) }
    ensures size { IfOk result (λ n.
        size_by mnemonic (option_map target_value target.entry) ≡ size_of mnemonic n) }
    ensures wrong { IfErr result (λ kind.
        number_kind (place_in labels.now) place mnemonic (option_map target_value target.entry) ≡ Some kind) }
{
    match target {
        None => Ok(0),
        Some(Target::Number(number)) if mnemonic.takes(number) => Ok(number),
        Some(Target::Number(_)) => Err(AsmKind::Number),
        Some(Target::Label(name)) => {
            let Some(spot) = labels.get(&name) else {
                return Err(AsmKind::Label);
            };
            let offset = i128::from(spot.place) - place as i128;
            if !mnemonic.takes(offset) {
                return Err(AsmKind::Reach);
            }
            Ok(offset)
        }
    }
}
