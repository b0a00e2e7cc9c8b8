ghost use Rattle.std.specs.Prelude.{◌≡◌, ◌≤◌, ◌<◌, ◌+◌, ◌++◌, ◌^◌, Bool, List, length};
ghost use Rattle.file_plan.specs.Plan.{record_place};

use crate::texts::{front, record};
use crate::{FRONT_LEN, RECORD_LEN};
use mapped_ram_header::{Places, places};
use page_bitmap::Bitmap;
use ram_block::{PAGE, Shape};
use std::marker::Model;

/// Where the first block's record begins.
pub const FIRST_RECORD: u64 = 47;

/// The bytes of a block's record before its mapped-ram header: the name and the used length.
pub const RECORD_HEAD: u64 = 13;

/// Where each piece of the file of a machine of one shape stands, in bytes from the file's start.
#[derive(Clone, Copy, Debug, PartialEq, Eq)]
pub struct Plan {
    shape: Shape,
}

impl Model for Plan {
    ghost use Rattle.ram_block.specs.Shape.{ShapeData};

    ghost Value = { ShapeData };

    ghost view = { λ p. p.shape };

    ghost inverse = { λ d. record { shape = d } };
}

impl Plan {
    ghost use Rattle.ram_block.specs.Shape.{total_pages_of};
    ghost use Rattle.page_bitmap.specs.Bitmap.{byte_len_of, bytes_of};
    ghost use Rattle.file_plan.specs.Plan.{record_place, block_places, page_place, tail_place, head_place, head_len_of};
    ghost use Rattle.file_plan.specs.Layout.{head_text, record_text};

    pub fn of(shape: &Shape) -> Plan
        ensures { result ≡ shape.now }
    {
        Plan { shape: *shape }
    }

    /// Where the header, the bitmap and the pages of a block stand.
    pub fn places(&self, block: u32) -> Places
        requires { block < self.now.blocks }
        ensures places { result ≡ block_places self.now.pages block }
        ensures small { result.end ≤ 2 ^ 31 }
    {
        places(self.record_at(block) + RECORD_HEAD, self.shape.pages())
    }

    /// Where the record of a block begins.
    pub fn record_at(&self, block: u32) -> u64
        requires { block < self.now.blocks }
        ensures place { result ≡ record_place self.now.pages block }
        ensures small { result ≤ 2 ^ 30 }
    {
        record_after(block, self.shape.pages())
    }

    /// Where a page stands, counted over all blocks.
    pub fn page_at(&self, p: u32) -> u64
        requires { p < total_pages_of self.now }
        ensures place { result ≡ page_place self.now.pages p }
        ensures small { result + PAGE ≤ 2 ^ 31 }
    {
        let pages = self.shape.pages();
        let first = self.places(p / pages).pages;
        first + PAGE as u64 * u64::from(p % pages)
    }

    /// Where the tail begins: behind the last block's pages.
    pub fn tail_at(&self) -> u64
        ensures place { result ≡ tail_place self.now }
        ensures small { result ≤ 2 ^ 30 }
    {
        record_after(self.shape.blocks(), self.shape.pages())
    }

    /// Where the head piece of a block begins: that of the first block at the file's start.
    pub fn head_at(&self, block: u32) -> u64
        requires { block < self.now.blocks }
        ensures place { result ≡ head_place self.now block }
        ensures small { result ≤ 2 ^ 30 }
    {
        if block == 0 { 0 } else { self.record_at(block) }
    }

    /// How many bytes the head piece of a block has.
    #[tactic(auto, using(crate::proofs::Heads::length_head))]
    pub fn head_len(&self, block: u32) -> usize
        requires { block < self.now.blocks }
        ensures len { result ≡ head_len_of self.now.pages block }
        ensures text { (bits : List Bool) → length (head_text self.now block bits) ≡ result }
        ensures small { result ≤ 344 }
    {
        let record = RECORD_LEN + 8 * self.shape.pages().div_ceil(64) as usize;
        if block == 0 {
            FRONT_LEN + record
        } else {
            record
        }
    }

    /// Writes the head piece of a block: for the first the front of the file, then the record and the bitmap.
    #[tactic(auto, using(crate::proofs::Heads::first_head, crate::proofs::Heads::later_head))]
    pub fn put_head(&self, block: u32, bits: &Bitmap, out: &mut [u8])
        requires block { block < self.now.blocks }
        requires bits { bits.now.pages ≡ self.now.pages }
        requires out { length out.old ≡ head_len_of self.now.pages block }
        ensures { out.new ≡ head_text self.now block bits.now.bits }
    {
        if block == 0 {
            let (start, rest) = out.split_at_mut(FRONT_LEN);
            start.copy_from_slice(&front(&self.shape));
            self.put_record(0, bits, rest);
        } else {
            self.put_record(block, bits, out);
        }
    }

    // Writes the record and the bitmap of a block.
    fn put_record(&self, block: u32, bits: &Bitmap, out: &mut [u8])
        requires block { block < self.now.blocks }
        requires bits { bits.now.pages ≡ self.now.pages }
        requires out { length out.old ≡ RECORD_LEN + byte_len_of self.now.pages }
        ensures { out.new ≡ record_text self.now block ++ bytes_of self.now.pages bits.now.bits }
    {
        let (start, rest) = out.split_at_mut(RECORD_LEN);
        start.copy_from_slice(&record(&self.shape, block, &self.places(block)));
        bits.put_bytes(rest);
    }
}

// Where what follows so many blocks begins.
#[tactic(auto, using(crate::proofs::Records::record_place_first, crate::proofs::Records::record_place_more))]
fn record_after(blocks: u32, pages: u32) -> u64
    requires blocks { blocks ≤ 8 }
    requires some_page { 1 ≤ pages }
    requires pages { pages ≤ 2048 }
    ensures place { result ≡ record_place pages blocks }
    ensures small { result ≤ 2 ^ 30 }
{
    let mut at = FIRST_RECORD;
    for _ in 0..blocks {
        at = places(at + RECORD_HEAD, pages).end;
    }
    at
}
