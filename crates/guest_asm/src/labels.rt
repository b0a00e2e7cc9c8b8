ghost use Rattle.std.specs.Prelude.{◌≡◌, ℕ, ◌≤◌, ◌^◌, List, IfOk, OnOk, Some, None, false, length, map, if◌then◌else◌};
ghost use Rattle.std.specs.Option.{option_map_or, option_or};
ghost use Rattle.std.specs.Str.{bytes_eq};
ghost use Rattle.guest_asm.specs.Labels.{size_placed};
ghost use Rattle.guest_asm.specs.Steps.{HasLabelsOf, spot_in};

use crate::line::line_of;
use crate::operand::Target;
use crate::statement::operands_of;
use crate::text::{first_word, rest_of};
use crate::{MAX_ASSEMBLED, Mnemonic};
use std::alloc::{AllocError, Global};
use std::collections::BTreeMap;

/// Where a label stands: the first line that has it, counted from 0, and its place in the bytes.
#[derive(Clone, Copy)]
pub(crate) struct Spot {
    pub(crate) line: usize,
    pub(crate) place: u64,
}

/// The labels of a text, by their names.
pub(crate) type Labels<'a> = BTreeMap<&'a [u8], Spot>;

/// The labels of the lines.
pub(crate) fn labels_of<'a>(alloc: Global, lines: &[&'a [u8]]) -> Result<Labels<'a>, AllocError>
    requires { length lines.now ≤ 2 ^ 32 }
    ensures { IfOk result (HasLabelsOf (map (λ line. line.now) lines.now)) }
{
    let mut labels = BTreeMap::new(alloc);
    let mut place = 0;
    for (line, text) in lines.iter().enumerate() {
        let parts = line_of(*text);
        note_label(&mut labels, parts.label, Spot { line, place })?;
        place += size_placed(parts.statement) as u64;
    }
    Ok(labels)
}

// Notes the label of a line, where it has one that no line before it has.
fn note_label<'a>(
    labels: &mut Labels<'a>,
    label: Option<&'a [u8]>,
    spot: Spot,
) -> Result<(), AllocError>
    ensures { OnOk result ((name : List ℕ) → spot_in labels.new name
        ≡ option_or (spot_in labels.old name) (if option_map_or (λ l. bytes_eq name l.now) label.entry false then Some spot else None)) }
{
    if let Some(name) = label
        && !labels.contains_key(&name)
    {
        labels.insert(name, spot)?;
    }
    Ok(())
}

/// How many bytes a statement places: none where it is wrong in its mnemonic, its form or its number.
#[tactic(auto, using(crate::proofs::Empty::empty_size), unfolding(crate::specs::Labels::size_placed))]
pub(crate) fn size_placed(statement: &[u8]) -> usize
    ensures size { result ≡ size_placed statement.now }
    ensures small { result ≤ MAX_ASSEMBLED }
{
    if statement.is_empty() {
        return 0;
    }
    let Some(mnemonic) = Mnemonic::named(first_word(statement)) else {
        return 0;
    };
    let Some(operands) = operands_of(mnemonic.form(), rest_of(statement)) else {
        return 0;
    };
    match operands.target() {
        Some(Target::Number(number)) if !mnemonic.takes(number) => 0,
        Some(Target::Number(number)) => mnemonic.size(number),
        Some(Target::Label(_)) | None => mnemonic.size(0),
    }
}
