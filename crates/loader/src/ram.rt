ghost use Rattle.std.specs.Prelude.{◌≡◌, ◌≤◌, ◌<◌, ◌+◌, ◌-◌, ◌*◌, ◌^◌, ℕ, suc, List, Some, Err, IfOk, IfSome, OnOk, All, length, vec_len};
ghost use Rattle.medium.specs.Count.{HasRisen};
ghost use Rattle.medium.specs.Members.{file_state};
ghost use Rattle.medium.specs.States.{Leaves};
ghost use Rattle.ram_block.specs.Shape.{ram_bytes_of};
ghost use Rattle.ram_block.specs.declared.limits.TheConstants.{MAX_RAM};
ghost use Rattle.ram_block.specs.declared.page_buf.TheConstants.{PAGE};
ghost use Rattle.loader.specs.Frame.{bitmaps_in, blocks_in, is_length, later_in, ram_in, shape_of};
ghost use Rattle.loader.specs.Piece.{Answers, AnswersAs};
ghost use Rattle.loader.specs.Stands.{GoesOn, HasBlock, HasBlocks, HasHeader, HasLater, says_ram};
ghost use Rattle.loader.specs.declared.refusal.LoadFault.TheVariants.{ReadFault};

use crate::block::{read_block, read_used};
use crate::{LoadFault, Refusal};
use file_plan::{FIRST_RECORD, Plan};
use medium::Readable;
use page_bitmap::Bitmap;
use ram_block::{MAX_BLOCKS, MAX_PAGES, PAGE, Shape};
use std::alloc::Global;

/// What a file says of its RAM: its blocks and their pages, in the shape of a machine with one vCPU, and the bitmap of
/// each block.
#[derive(Drop)]
pub struct Ram {
    pub shape: Shape,
    pub bits: Vec<Bitmap>,
}

/// The blocks of RAM of this total.
#[tactic(auto, unfolding(crate::specs::Frame::ram_in))]
pub(crate) fn read_ram<M: Readable>(
    alloc: Global,
    medium: &mut M,
    total: u64,
) -> Result<Ram, LoadFault>
    requires some_page { PAGE ≤ total }
    requires most { total ≤ MAX_RAM }
    ensures answer { (file : List ℕ) → M.told medium.old ≡ Some file → AnswersAs says_ram (ram_in file total) result }
    ensures stands { (file : List ℕ) → M.told medium.old ≡ Some file → IfOk result (λ ram. HasBlocks file ram.shape.pages ram.shape.blocks) }
    ensures total { IfOk result (λ ram. ram_bytes_of ram.shape ≡ total) }
    ensures count { IfOk result (λ ram. vec_len ram.bits ≡ ram.shape.blocks) }
    ensures pages { IfOk result (λ ram. All (λ b. b.pages ≡ ram.shape.pages) ram.bits.items) }
    ensures read_fault { result ≡ Err ReadFault → HasRisen (M.faults medium.old) (M.faults medium.new) }
    ensures leaves { Leaves (file_state M.Readable medium.old) (file_state M.Readable medium.new) }
{
    let v = read_used(medium, 0, FIRST_RECORD)?;
    let Some(shape) = shape_of(total, v) else {
        return Err(LoadFault::Refused(Refusal::Length { block: 0, v }));
    };
    let bits = read_bitmaps(alloc, medium, &shape)?;
    Ok(Ram { shape, bits })
}

// The blocks and pages that a first block of this length asks for.
#[tactic(auto, using(crate::proofs::Lengths::length_parts, crate::proofs::Lengths::total_is))]
fn shape_of(total: u64, v: u64) -> Option<Shape>
    requires some_page { PAGE ≤ total }
    requires most { total ≤ MAX_RAM }
    ensures shape { result ≡ shape_of total v }
    ensures used { IfSome result (λ s. PAGE * s.pages ≡ v) }
    ensures total { IfSome result (λ s. ram_bytes_of s ≡ total) }
{
    if !is_length(total, v) {
        return None;
    }
    match Shape::new(1, total / v, v / PAGE as u64) {
        Ok(shape) => Some(shape),
        Err(_) => unreachable!(),
    }
}

// Whether a first block can have this length.
fn is_length(total: u64, v: u64) -> bool
    ensures { result ≡ is_length total v }
{
    v % PAGE as u64 == 0
        && v >= PAGE as u64
        && v <= PAGE as u64 * u64::from(MAX_PAGES)
        && total % v == 0
        && total / v <= u64::from(MAX_BLOCKS)
}

// The bitmaps of all blocks.
#[tactic(auto, unfolding(crate::specs::Frame::bitmaps_in))]
fn read_bitmaps<M: Readable>(
    alloc: Global,
    medium: &mut M,
    shape: &Shape,
) -> Result<Vec<Bitmap>, LoadFault>
    ensures answer { (file : List ℕ) → M.told medium.old ≡ Some file → AnswersAs (λ bits. bits.items) (bitmaps_in file shape.now.pages shape.now.blocks) result }
    ensures stands { (file : List ℕ) → M.told medium.old ≡ Some file → IfOk result (λ bits. HasLater file shape.now.pages shape.now.blocks × HasHeader file shape.now.pages 0) }
    ensures count { IfOk result (λ bits. vec_len bits ≡ shape.now.blocks) }
    ensures pages { IfOk result (λ bits. All (λ b. b.pages ≡ shape.now.pages) bits.items) }
    ensures read_fault { result ≡ Err ReadFault → HasRisen (M.faults medium.old) (M.faults medium.new) }
    ensures leaves { Leaves (file_state M.Readable medium.old) (file_state M.Readable medium.new) }
{
    let first = read_block(alloc, medium, &Plan::of(shape).places(0), 0, shape.pages())?;
    let mut bits = Vec::with_capacity(alloc, shape.blocks() as usize)?;
    if bits.push(first).is_err() {
        return Err(LoadFault::NoMemory);
    }
    for block in 1..shape.blocks() {
        if let Err(fault) = read_later(alloc, medium, shape, block, &mut bits) {
            return Err(fault);
        }
    }
    Ok(bits)
}

// A block behind the first one: its bitmap is put last.
#[tactic(auto, using(crate::proofs::Blocks::goes_on, crate::proofs::Blocks::is_refused), unfolding(crate::specs::Frame::later_in))]
fn read_later<M: Readable>(
    alloc: Global,
    medium: &mut M,
    shape: &Shape,
    block: u32,
    bits: &mut Vec<Bitmap>,
) -> Result<(), LoadFault>
    requires { block < shape.now.blocks }
    ensures answer { (file : List ℕ) (n : ℕ) → M.told medium.old ≡ Some file → GoesOn (blocks_in file shape.now.pages block (suc n) bits.old.items) (blocks_in file shape.now.pages (block + 1) n bits.new.items) result }
    ensures stands { (file : List ℕ) → M.told medium.old ≡ Some file → OnOk result (HasBlock file shape.now.pages block) }
    ensures count { OnOk result (vec_len bits.new ≡ vec_len bits.old + 1) }
    ensures pages { OnOk result (All (λ b. b.pages ≡ shape.now.pages) bits.old.items → All (λ b. b.pages ≡ shape.now.pages) bits.new.items) }
    ensures read_fault { result ≡ Err ReadFault → HasRisen (M.faults medium.old) (M.faults medium.new) }
    ensures leaves { Leaves (file_state M.Readable medium.old) (file_state M.Readable medium.new) }
{
    let bitmap = read_later_block(alloc, medium, shape, block)?;
    if bits.push(bitmap).is_err() {
        return Err(LoadFault::NoMemory);
    }
    Ok(())
}

// The bitmap of a block behind the first one.
#[tactic(auto, unfolding(crate::specs::Frame::later_in))]
fn read_later_block<M: Readable>(
    alloc: Global,
    medium: &mut M,
    shape: &Shape,
    block: u32,
) -> Result<Bitmap, LoadFault>
    requires { block < shape.now.blocks }
    ensures answer { (file : List ℕ) → M.told medium.old ≡ Some file → Answers (later_in file shape.now.pages block) result }
    ensures stands { (file : List ℕ) → M.told medium.old ≡ Some file → IfOk result (λ _. HasBlock file shape.now.pages block) }
    ensures pages { IfOk result (λ bits. bits.pages ≡ shape.now.pages) }
    ensures read_fault { result ≡ Err ReadFault → HasRisen (M.faults medium.old) (M.faults medium.new) }
    ensures leaves { Leaves (file_state M.Readable medium.old) (file_state M.Readable medium.new) }
{
    let plan = Plan::of(shape);
    let pages = shape.pages();
    let v = read_used(medium, block, plan.record_at(block))?;
    if v != PAGE as u64 * u64::from(pages) {
        return Err(LoadFault::Refused(Refusal::Length { block, v }));
    }
    read_block(alloc, medium, &plan.places(block), block, pages)
}
