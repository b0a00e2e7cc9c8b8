ghost use Rattle.std.specs.Prelude.{◌≡◌, ◌<◌, ◌≤◌, ◌+◌, ◌*◌, ◌^◌, ◌++◌, All, length, Some, None, IfOk, IfSome, true, false, replicate, slice_get, slice_set, if◌then◌else◌};
ghost use Rattle.std.specs.List.{range_with_len};
ghost use Rattle.ram_block.specs.PageLinks.{is_listed};
ghost use Rattle.ram_block.specs.Shape.{total_pages_of};
ghost use Rattle.page_sweep.specs.Sweep.{IsSweep, without};
ghost use Rattle.flat_machine.specs.Machine.{IsMachine, Rest};
ghost use Rattle.file_plan.specs.Layout.{head_text, tail_text};
ghost use Rattle.file_plan.specs.Plan.{head_len_of};
ghost use Rattle.bg_saver.specs.Save.{saver_at};
ghost use Rattle.bg_saver.specs.Saver.{IsSaver, block_bits, total_of};
ghost use Rattle.bg_saver.specs.Turn.{after_fault, after_save, counts_with};
ghost use Rattle.bg_saver.specs.Inside.{IsOfBlock, joined_bits};
ghost use Rattle.bg_saver.specs.Writes.{whole_tail};
ghost use Rattle.bg_saver.specs.declared.save_end.SaveEnd.TheVariants as ends;

use crate::{Counts, SaveEnd};
use file_plan::{Plan, tail};
use page_bitmap::Bitmap;
use page_sweep::Sweep;
use ram_block::{NoMemory, Shape};
use std::alloc::Global;
use std::marker::Model;
use vm_stop::Stopped;

/// The page that is taken next, and whether a pick gave it.
#[derive(Clone, Copy, Debug, PartialEq, Eq)]
pub(crate) struct PageInHand {
    pub(crate) page: u32,
    pub(crate) picked: bool,
}

/// How far a save has come: which pages are left, and which bits are set.
#[derive(Drop)]
pub(crate) struct Progress {
    shape: Shape,
    // One for each block.
    bitmaps: Vec<Bitmap>,
    sweep: Sweep,
    hand: Option<PageInHand>,
    end: Option<SaveEnd>,
    counts: Counts,
    // For each page whether `faults` counts it.
    faulted: Vec<bool>,
    // What stands behind the last block's pages.
    tail: Vec<u8>,
}

impl Model for Progress {
    ghost use Rattle.bg_saver.specs.Saver.{SaverData};

    ghost Value = { SaverData };

    ghost use Rattle.bg_saver.specs.Inside.{IsInside, progress_of};

    ghost view = { progress_of };

    ghost invariant = { IsInside };
}

impl Progress {
    /// At the instant: all pages are left.
    pub(crate) fn at_instant(alloc: Global, stopped: &Stopped) -> Result<Progress, NoMemory>
        ensures begun { IfOk result (λ d. d ≡ saver_at stopped.now) }
        ensures limits { IfOk result IsSaver }
        ensures machine { IsMachine stopped.now }
        ensures rest { Rest stopped.now }
    {
        let shape = stopped.machine().shape();
        let pages = shape.total_pages();
        Ok(Progress {
            shape,
            bitmaps: bitmaps_for(alloc, &shape)?,
            sweep: full_sweep(alloc, pages)?,
            hand: None,
            end: None,
            counts: Counts {
                faults: 0,
                sweep: 0,
            },
            faulted: vec![in alloc; false; pages as usize]?,
            tail: tail_of(alloc, stopped.devices())?,
        })
    }

    pub(crate) fn plan(&self) -> Plan
        ensures plan { result ≡ self.now.shape }
        ensures limits { IsSaver self.now }
    {
        Plan::of(&self.shape)
    }

    pub(crate) fn end(&self) -> Option<SaveEnd>
        ensures end { result ≡ self.now.end }
        ensures limits { IsSaver self.now }
    {
        self.end
    }

    pub(crate) fn counts(&self) -> Counts
        ensures counts { result ≡ self.now.counts }
        ensures limits { IsSaver self.now }
    {
        self.counts
    }

    pub(crate) fn hand(&self) -> Option<PageInHand>
        ensures hand { result ≡ self.now.hand }
        ensures limits { IsSaver self.now }
    {
        self.hand
    }

    /// The least page left.
    pub(crate) fn first(&self) -> Option<u32>
        ensures first { result ≡ slice_get self.now.left 0 }
        ensures below { IfSome result (λ p. p < total_of self.now) }
        ensures limits { IsSaver self.now }
    {
        self.sweep.first()
    }

    /// How many blocks there are.
    pub(crate) fn blocks(&self) -> u32
        ensures blocks { result ≡ self.now.shape.blocks }
        ensures limits { IsSaver self.now }
    {
        self.shape.blocks()
    }

    pub(crate) fn tail(&self) -> &[u8]
        ensures text { result.now ≡ whole_tail self.now }
        ensures short { length result.now ≤ 2 ^ 30 }
        ensures limits { IsSaver self.now }
    {
        self.tail.as_slice()
    }

    /// Writes the head piece of a block.
    pub(crate) fn put_head(&self, block: u32, out: &mut [u8])
        requires block { block < self.now.shape.blocks }
        requires out { length out.old ≡ head_len_of self.now.shape.pages block }
        ensures text { out.new ≡ head_text self.now.shape block (block_bits self.now block) }
        ensures limits { IsSaver self.now }
    {
        Plan::of(&self.shape).put_head(block, &self.bitmaps[block as usize], out);
    }

    /// Keeps this page in hand, or none.
    pub(crate) fn hold(&mut self, hand: Option<PageInHand>)
        requires { IfSome hand (λ h. h.page < total_of self.old) }
        ensures held { self.new ≡ record self.old { hand = hand } }
        ensures limits { IsSaver self.new }
    {
        self.hand = hand;
    }

    /// A page was copied, and written unless it is all zeros.
    pub(crate) fn saved(&mut self, taken: PageInHand, zeros: bool)
        requires runs { self.old.end ≡ None }
        requires page { taken.page < total_of self.old }
        requires left { is_listed self.old.left taken.page ≡ true }
        ensures saved { self.new ≡ after_save self.old taken zeros }
        ensures limits { IsSaver self.new }
    {
        set_bit(&mut self.bitmaps, self.shape.pages(), taken.page, zeros);
        self.sweep.remove(taken.page);
        self.hand = None;
        count(&mut self.counts, &mut self.faulted, taken);
    }

    /// A page was copied, and its write failed.
    pub(crate) fn failed_at(&mut self, page: u32)
        requires runs { self.old.end ≡ None }
        requires page { page < total_of self.old }
        ensures failed { self.new ≡ after_fault self.old page }
        ensures limits { IsSaver self.new }
    {
        set_bit(&mut self.bitmaps, self.shape.pages(), page, false);
        self.sweep.remove(page);
        self.hand = None;
        self.end = Some(SaveEnd::Failed);
    }

    /// Ends the save.
    pub(crate) fn end_with(&mut self, end: SaveEnd)
        requires { self.old.end ≡ None }
        ensures ended { self.new ≡ record self.old { end = Some end } }
        ensures limits { IsSaver self.new }
    {
        self.end = Some(end);
    }

    /// Takes a page off the pages left, without counting it.
    pub(crate) fn let_go(&mut self, page: u32)
        requires failed { self.old.end ≡ Some ends.Failed }
        requires page { page < total_of self.old }
        ensures left { self.new ≡ record self.old { left = without self.old.left page } }
        ensures limits { IsSaver self.new }
    {
        self.sweep.remove(page);
    }
}

// A clear bitmap for each block.
fn bitmaps_for(alloc: Global, shape: &Shape) -> Result<Vec<Bitmap>, NoMemory>
    ensures count { IfOk result (λ v. length v.items ≡ shape.now.blocks) }
    ensures each { IfOk result (λ v. All (IsOfBlock shape.now.pages) v.items) }
    ensures clear { IfOk result (λ v. joined_bits v.items ≡ replicate (total_pages_of shape.now) false) }
{
    let mut bitmaps = Vec::new(alloc);
    for _ in 0..shape.blocks() {
        bitmaps.push(Bitmap::new(alloc, shape.pages())?)?;
    }
    Ok(bitmaps)
}

// The sweep with all pages left.
fn full_sweep(alloc: Global, pages: u32) -> Result<Sweep, NoMemory>
    ensures all { IfOk result (λ s. s ≡ record { pages = pages; list = range_with_len 0 pages }) }
    ensures kept { IfOk result IsSweep }
{
    let sweep = Sweep::full(alloc, pages)?;
    let _left = sweep.left();
    Ok(sweep)
}

// What stands behind the last block's pages.
fn tail_of(alloc: Global, devices: &[u8]) -> Result<Vec<u8>, NoMemory>
    ensures { IfOk result (λ text. text.items ≡ tail_text ++ devices.now) }
{
    let mut text = Vec::new(alloc);
    text.extend_from_slice(&tail())?;
    text.extend_from_slice(devices)?;
    Ok(text)
}

// Sets the bit of a page, counted over all blocks, unless the page is all zeros.
fn set_bit(bitmaps: &mut Vec<Bitmap>, pages: u32, p: u32, zeros: bool)
    requires each { All (IsOfBlock pages) bitmaps.old.items }
    requires page { p < length bitmaps.old.items * pages }
    ensures bits { joined_bits bitmaps.new.items ≡ (if zeros then joined_bits bitmaps.old.items else slice_set (joined_bits bitmaps.old.items) p true) }
    ensures each { All (IsOfBlock pages) bitmaps.new.items }
    ensures count { length bitmaps.new.items ≡ length bitmaps.old.items }
{
    if !zeros {
        bitmaps[(p / pages) as usize].set(p % pages);
    }
}

// Counts a page by where it came from.
fn count(counts: &mut Counts, faulted: &mut Vec<bool>, taken: PageInHand)
    requires page { taken.page < length faulted.old.items }
    requires room { counts.old.faults + counts.old.sweep < 2 ^ 31 }
    ensures counts { counts.new ≡ counts_with counts.old taken.picked }
    ensures faulted { faulted.new.items ≡ (if taken.picked then slice_set faulted.old.items taken.page true else faulted.old.items) }
{
    if taken.picked {
        counts.faults += 1;
        faulted[taken.page as usize] = true;
    } else {
        counts.sweep += 1;
    }
}
