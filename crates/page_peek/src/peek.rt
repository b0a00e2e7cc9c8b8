ghost use Rattle.std.specs.Prelude.{◌≡◌, ◌<◌, ◌+◌, ℕ, List, Ok, Err, IfOk, IfSome, OnErr, All, false, true, vec_len};
ghost use Rattle.medium.specs.Count.{HasRisen};
ghost use Rattle.medium.specs.Members.{file_state};
ghost use Rattle.medium.specs.States.{Leaves};
ghost use Rattle.ram_block.specs.Page.{zero_page};
ghost use Rattle.ram_block.specs.Shape.{total_pages_of};
ghost use Rattle.file_plan.specs.Plan.{page_place};
ghost use Rattle.page_peek.specs.Peeked.{IsPeek, Opens, Peeks, bit_of};
ghost use Rattle.page_peek.specs.declared.fault.PageFault.TheVariants as pages;
ghost use Rattle.page_peek.specs.declared.fault.PeekFault.TheVariants.{ReadFault};

use crate::heads::read_heads;
use crate::page::read_page;
use crate::{PageFault, PeekFault};
use file_plan::Plan;
use medium::{Medium, Readable};
use page_bitmap::Bitmap;
use ram_block::{PAGE, PageBuf, Shape};
use std::alloc::Global;
use std::marker::Model;

/// Which pages a file has: the shape of its machine, and the bitmap of each block.
#[derive(Drop)]
pub struct Peek {
    shape: Shape,
    bits: Vec<Bitmap>,
}

impl Model for Peek {
    ghost use Rattle.page_peek.specs.Peeked.{PeekData, IsPeek};

    ghost Value = { PeekData };

    ghost view = { λ p. record { shape = p.shape; bits = p.bits.items } };

    ghost invariant = { λ p. IsPeek (record { shape = p.shape; bits = p.bits.items }) };
}

impl Peek {
    /// Of a shape and one bitmap of its pages for each block.
    pub fn of(shape: Shape, bits: Vec<Bitmap>) -> Peek
        requires blocks { vec_len bits ≡ shape.blocks }
        requires pages { All (λ b. b.pages ≡ shape.pages) bits.items }
        ensures peek { result ≡ record { shape = shape; bits = bits.items } }
        ensures limits { IsPeek result }
    {
        let _shape = shape.pages();
        Peek { shape, bits }
    }

    /// Reads the head pieces of a file of this shape: its front, and the record and the bitmap of each block.
    pub fn open<M: Medium>(alloc: Global, medium: &mut M, shape: Shape) -> Result<Peek, PeekFault>
        ensures answer { IfSome (M.Readable.told medium.old) (λ file. Opens file shape result) }
        ensures shape { IfOk result (λ peek. peek.shape ≡ shape) }
        ensures limits { IfOk result IsPeek }
        ensures read_fault { result ≡ Err ReadFault → HasRisen (M.Readable.faults medium.old) (M.Readable.faults medium.new) }
        ensures leaves { Leaves (file_state M.Readable medium.old) (file_state M.Readable medium.new) }
    {
        open_as(alloc, medium, shape)
    }

    pub fn shape(&self) -> Shape
        ensures value { result ≡ self.now.shape }
        ensures limits { IsPeek self.now }
    {
        self.shape
    }

    /// Whether the file has a page, counted over all blocks: any other one is all zeros.
    #[tactic(auto, unfolding(crate::specs::Peeked::bit_of))]
    pub fn has(&self, p: u32) -> bool
        requires { p < total_pages_of self.now.shape }
        ensures bit { result ≡ bit_of self.now p }
        ensures limits { IsPeek self.now }
    {
        let pages = self.shape.pages();
        let bitmap = &self.bits[(p / pages) as usize];
        bitmap.test(p % pages)
    }

    /// Puts a page, counted over all blocks, into the buffer. A page that the file hasn't is all zeros, and the file
    /// isn't read. After a fault the buffer holds any bytes. It takes no memory.
    pub fn page<M: Medium>(
        &self,
        medium: &mut M,
        p: u32,
        into: &mut PageBuf,
    ) -> Result<(), PageFault>
        requires { p < total_pages_of self.now.shape }
        ensures answer { IfSome (M.Readable.told medium.old) (λ file. Peeks file self.now p into.new result) }
        ensures clear { bit_of self.now p ≡ false → (result ≡ Ok tt) × (into.new ≡ zero_page) × (medium.new ≡ medium.old) }
        ensures truncated { (at : ℕ) → result ≡ Err (pages.Truncated at) → (at ≡ page_place self.now.shape.pages p) × (bit_of self.now p ≡ true) }
        ensures read_fault { result ≡ Err pages.ReadFault → HasRisen (M.Readable.faults medium.old) (M.Readable.faults medium.new) }
        ensures leaves { Leaves (file_state M.Readable medium.old) (file_state M.Readable medium.new) }
    {
        peek_page(self, medium, p, into)
    }
}

// The same, of any file that can be read.
#[tactic(auto, using(crate::proofs::PagesOf::peek_is))]
fn open_as<M: Readable>(alloc: Global, medium: &mut M, shape: Shape) -> Result<Peek, PeekFault>
    ensures answer { (file : List ℕ) → M.told medium.old ≡ Some file → Opens file shape result }
    ensures shape { IfOk result (λ peek. peek.shape ≡ shape) }
    ensures limits { IfOk result IsPeek }
    ensures read_fault { result ≡ Err ReadFault → HasRisen (M.faults medium.old) (M.faults medium.new) }
    ensures leaves { Leaves (file_state M.Readable medium.old) (file_state M.Readable medium.new) }
{
    match read_heads(alloc, medium, &shape) {
        Ok(bits) => Ok(Peek::of(shape, bits)),
        Err(fault) => Err(fault),
    }
}

fn peek_page<M: Readable>(
    peek: &Peek,
    medium: &mut M,
    p: u32,
    into: &mut PageBuf,
) -> Result<(), PageFault>
    requires { p < total_pages_of peek.now.shape }
    ensures answer { (file : List ℕ) → M.told medium.old ≡ Some file → Peeks file peek.now p into.new result }
    ensures clear { bit_of peek.now p ≡ false → (result ≡ Ok tt) × (into.new ≡ zero_page) × (medium.new ≡ medium.old) }
    ensures truncated { (at : ℕ) → result ≡ Err (pages.Truncated at) → (at ≡ page_place peek.now.shape.pages p) × (bit_of peek.now p ≡ true) }
    ensures read_fault { result ≡ Err pages.ReadFault → HasRisen (M.faults medium.old) (M.faults medium.new) }
    ensures leaves { Leaves (file_state M.Readable medium.old) (file_state M.Readable medium.new) }
{
    if !peek.has(p) {
        clear(into);
        return Ok(());
    }
    read_page(medium, Plan::of(&peek.shape).page_at(p), into)
}

// Makes a page one of zeros.
#[tactic(auto, unfolding(ram_block::specs::Page::zero_page))]
fn clear(page: &mut PageBuf)
    ensures { page.new ≡ zero_page }
{
    page.bytes_mut().copy_from_slice(&[0; PAGE]);
}
