ghost use Rattle.std.specs.Prelude.{◌≡◌, ◌≤◌, ◌<◌, ◌+◌, ◌^◌, ℕ, suc, List, ◌∷◌, ◌++◌, [], Some, None, Ok, Err, IfOk, OnOk, All, length, take, drop, vec_len};
ghost use Rattle.medium.specs.Count.{HasRisen};
ghost use Rattle.medium.specs.Members.{file_state};
ghost use Rattle.medium.specs.States.{Leaves};
ghost use Rattle.mig_stream.specs.Pieces.{piece_in, text_in};
ghost use Rattle.mig_stream.specs.declared.field_fault.FieldFault.TheVariants as fields;
ghost use Rattle.file_plan.specs.Plan.{head_len_of, head_place};
ghost use Rattle.page_peek.specs.Heads.{Heads, head_refusal, heads_refusal, refused_text};
ghost use Rattle.page_peek.specs.Peeked.{block_bits, cut_fault, peek_of, text_fault};
ghost use Rattle.page_peek.specs.declared.fault.PeekFault.{PeekFault};
ghost use Rattle.page_peek.specs.declared.fault.PeekFault.TheVariants.{Refused, ReadFault};
ghost use Rattle.page_peek.specs.declared.fault.PeekRefusal.{PeekRefusal};
ghost use Rattle.page_peek.specs.declared.fault.PeekRefusal.TheVariants.{Truncated};

use crate::{PeekFault, PeekRefusal};
use file_plan::Plan;
use medium::Readable;
use mig_stream::{FieldFault, FieldReader, TextFault};
use page_bitmap::Bitmap;
use ram_block::Shape;
use std::alloc::Global;

/// The most bytes of a head piece.
const MOST_HEAD_BYTES: usize = 344;

/// The bitmaps of all blocks of a file of this shape, whose head pieces are right.
#[tactic(auto, using(crate::proofs::Refusals::heads_found))]
pub(crate) fn read_heads<M: Readable>(
    alloc: Global,
    medium: &mut M,
    shape: &Shape,
) -> Result<Vec<Bitmap>, PeekFault>
    ensures heads { (file : List ℕ) → M.told medium.old ≡ Some file → IfOk result (λ bits. Heads file shape.now × (bits.items ≡ (peek_of file shape.now).bits)) }
    ensures refused { (file : List ℕ) (refusal : PeekRefusal) → M.told medium.old ≡ Some file → result ≡ Err (Refused refusal) → heads_refusal file shape.now ≡ Some refusal }
    ensures count { IfOk result (λ bits. vec_len bits ≡ shape.now.blocks) }
    ensures pages { IfOk result (λ bits. All (λ b. b.pages ≡ shape.now.pages) bits.items) }
    ensures read_fault { result ≡ Err ReadFault → HasRisen (M.faults medium.old) (M.faults medium.new) }
    ensures leaves { Leaves (file_state M.Readable medium.old) (file_state M.Readable medium.new) }
{
    let mut bits = Vec::with_capacity(alloc, shape.blocks() as usize)?;
    for block in 0..shape.blocks() {
        if let Err(fault) = read_next(alloc, medium, shape, block, &mut bits) {
            return Err(fault);
        }
    }
    Ok(bits)
}

// The bitmap of a block whose head piece is right is put last.
fn read_next<M: Readable>(
    alloc: Global,
    medium: &mut M,
    shape: &Shape,
    block: u32,
    bits: &mut Vec<Bitmap>,
) -> Result<(), PeekFault>
    requires { block < shape.now.blocks }
    ensures head { (file : List ℕ) → M.told medium.old ≡ Some file → OnOk result ((head_refusal file shape.now block ≡ None) × (bits.new.items ≡ bits.old.items ++ block_bits file shape.now block ∷ [])) }
    ensures refused { (file : List ℕ) (refusal : PeekRefusal) → M.told medium.old ≡ Some file → result ≡ Err (Refused refusal) → head_refusal file shape.now block ≡ Some refusal }
    ensures count { OnOk result (vec_len bits.new ≡ vec_len bits.old + 1) }
    ensures pages { OnOk result (All (λ b. b.pages ≡ shape.now.pages) bits.old.items → All (λ b. b.pages ≡ shape.now.pages) bits.new.items) }
    ensures read_fault { result ≡ Err ReadFault → HasRisen (M.faults medium.old) (M.faults medium.new) }
    ensures leaves { Leaves (file_state M.Readable medium.old) (file_state M.Readable medium.new) }
{
    let head = read_head(alloc, medium, shape, block)?;
    if bits.push(head).is_err() {
        return Err(PeekFault::NoMemory);
    }
    Ok(())
}

// The bitmap of a block whose head piece is right.
fn read_head<M: Readable>(
    alloc: Global,
    medium: &mut M,
    shape: &Shape,
    block: u32,
) -> Result<Bitmap, PeekFault>
    requires { block < shape.now.blocks }
    ensures head { (file : List ℕ) → M.told medium.old ≡ Some file → IfOk result (λ bits. (head_refusal file shape.now block ≡ None) × (bits ≡ block_bits file shape.now block)) }
    ensures refused { (file : List ℕ) (refusal : PeekRefusal) → M.told medium.old ≡ Some file → result ≡ Err (Refused refusal) → head_refusal file shape.now block ≡ Some refusal }
    ensures pages { IfOk result (λ bits. bits.pages ≡ shape.now.pages) }
    ensures read_fault { result ≡ Err ReadFault → HasRisen (M.faults medium.old) (M.faults medium.new) }
    ensures leaves { Leaves (file_state M.Readable medium.old) (file_state M.Readable medium.new) }
{
    let Ok(mut bits) = Bitmap::new(alloc, shape.pages()) else {
        return Err(PeekFault::NoMemory);
    };
    let plan = Plan::of(shape);
    let len = plan.head_len(block);
    let mut buf = [0; MOST_HEAD_BYTES];
    let piece = &mut buf[..len];
    if let Err(fault) = read_piece(medium, &plan, block, &bits, piece) {
        return Err(fault);
    }
    bits.get_bytes(&piece[len - bits.byte_len()..]);
    Ok(bits)
}

// The head piece of a block, which is right before its bitmap. The bitmap given may be any of the block's pages.
#[tactic(auto, using(crate::proofs::HeadPieces::fixed_front, crate::proofs::HeadPieces::head_cut, crate::proofs::HeadPieces::head_by_text))]
fn read_piece<M: Readable>(
    medium: &mut M,
    plan: &Plan,
    block: u32,
    bits: &Bitmap,
    piece: &mut [u8],
) -> Result<(), PeekFault>
    requires block { block < plan.now.blocks }
    requires bits { bits.now.pages ≡ plan.now.pages }
    requires piece { length piece.old ≡ head_len_of plan.now.pages block }
    ensures piece { (file : List ℕ) → M.told medium.old ≡ Some file → OnOk result ((head_refusal file plan.now block ≡ None) × (piece.new ≡ take (head_len_of plan.now.pages block) (drop (head_place plan.now block) file))) }
    ensures refused { (file : List ℕ) (refusal : PeekRefusal) → M.told medium.old ≡ Some file → result ≡ Err (Refused refusal) → head_refusal file plan.now block ≡ Some refusal }
    ensures length { length piece.new ≡ length piece.old }
    ensures read_fault { result ≡ Err ReadFault → HasRisen (M.faults medium.old) (M.faults medium.new) }
    ensures leaves { Leaves (file_state M.Readable medium.old) (file_state M.Readable medium.new) }
{
    let (at, len) = (plan.head_at(block), plan.head_len(block));
    if let Err(fault) = take(medium, at, piece) {
        return Err(fault);
    }
    let mut text = [0; MOST_HEAD_BYTES];
    let wanted = &mut text[..len];
    plan.put_head(block, bits, wanted);
    if let Err(fault) = expect(medium, at, &wanted[..len - bits.byte_len()]) {
        return Err(fault);
    }
    Ok(())
}

// Reads a piece whole.
fn take<M: Readable>(medium: &mut M, at: u64, piece: &mut [u8]) -> Result<(), PeekFault>
    requires { at + length piece.old ≤ 2 ^ 33 }
    ensures piece { (file : List ℕ) → M.told medium.old ≡ Some file → OnOk result (piece_in file at (length piece.old) ≡ Ok piece.new) }
    ensures cut { (file : List ℕ) (refusal : PeekRefusal) → M.told medium.old ≡ Some file → result ≡ Err (Refused refusal) → (piece_in file at (length piece.old) ≡ Err (fields.Truncated at)) × (refusal ≡ Truncated at) }
    ensures length { length piece.new ≡ length piece.old }
    ensures read_fault { result ≡ Err ReadFault → HasRisen (M.faults medium.old) (M.faults medium.new) }
    ensures leaves { Leaves (file_state M.Readable medium.old) (file_state M.Readable medium.new) }
{
    match FieldReader::new(medium, at).take(piece) {
        Ok(()) => Ok(()),
        Err(fault) => Err(cut(fault)),
    }
}

// Whether the piece at a place is this text.
fn expect<M: Readable>(medium: &mut M, at: u64, text: &[u8]) -> Result<(), PeekFault>
    requires { at + length text.now ≤ 2 ^ 33 }
    ensures found { (file : List ℕ) → M.told medium.old ≡ Some file → OnOk result (text_in file at text.now ≡ Ok tt) }
    ensures refused { (file : List ℕ) (refusal : PeekRefusal) → M.told medium.old ≡ Some file → result ≡ Err (Refused refusal) → refused_text at (text_in file at text.now) ≡ Some refusal }
    ensures read_fault { result ≡ Err ReadFault → HasRisen (M.faults medium.old) (M.faults medium.new) }
    ensures leaves { Leaves (file_state M.Readable medium.old) (file_state M.Readable medium.new) }
{
    match FieldReader::new(medium, at).expect(text) {
        Ok(()) => Ok(()),
        Err(fault) => Err(other(fault)),
    }
}

// The fault of a head piece that isn't there.
fn cut(fault: FieldFault) -> PeekFault
    ensures { result ≡ cut_fault fault }
{
    match fault {
        FieldFault::Truncated { at } => PeekFault::Refused(PeekRefusal::Truncated { at }),
        FieldFault::ReadFault => PeekFault::ReadFault,
    }
}

// The fault of a head piece that is another.
fn other(fault: TextFault) -> PeekFault
    ensures { result ≡ text_fault fault }
{
    match fault {
        TextFault::Field(fault) => cut(fault),
        TextFault::Differs { at, found } => PeekFault::Refused(PeekRefusal::Differs { at, found }),
    }
}
