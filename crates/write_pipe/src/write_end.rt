ghost use Rattle.std.specs.Prelude.{◌≡◌, ◌<◌, ◌↔◌, None, true};
ghost use Rattle.page_cell.specs.Plant.{LeavesPick, LeavesTake};
ghost use Rattle.write_pipe.specs.WriteEnd.{IsDrained, IsWriteEnd, LacksPage, LeavesDiscard, LeavesFetch, after_pick, after_take, is_held, is_open, pick_from, taken_by, write_state};
ghost use Rattle.ram_block.specs.PageLinks.{is_listed};
ghost use Rattle.page_cell.specs.declared.plant.Taken.TheVariants as takes;
ghost use Rattle.write_pipe.specs.declared.fetch.Discard.TheVariants.{Done, Took};

use crate::outlet::{InHand, Outlet};
use crate::{Discard, Fetch};
use crossbeam_queue::ArrayQueue;
use page_cell::{PageBuf, Pick, Plant, Taken};
use std::alloc::Global;
use std::marker::Model;
use std::mem;
use std::sync::{Arc, Wait};

/// The end of the relay at which a saver takes pages: those that a fetch brings, one at a time.
#[derive(Drop)]
pub struct WriteEnd<P: Plant> {
    pub(crate) outlet: Outlet<P>,
    // Emptied buffers, on their way back.
    pub(crate) spares: Arc<ArrayQueue<PageBuf>, Global>,
    pub(crate) hand: Option<InHand>,
    // The buffer of the page last taken.
    pub(crate) emptied: Option<PageBuf>,
    pub(crate) writable: Vec<bool>,
    pub(crate) picked: Vec<bool>,
    pub(crate) busy: u64,
    pub(crate) picks: u64,
    pub(crate) last: Option<Pick>,
}

impl<P: Plant> Model for WriteEnd<P> {
    ghost use Rattle.write_pipe.specs.WriteEnd.{IsWriteEnd, WriteData, write_end_of};

    ghost Value = { WriteData P };

    ghost view = { write_end_of };

    ghost invariant = { λ s. IsWriteEnd P.total P.writable P.stands P.fits (write_end_of s) };
}

impl<P: Plant> WriteEnd<P> {
    /// Brings the next page of the queue into hand. The buffer of the page last taken goes back as a spare.
    pub fn fetch<R: Wait>(&mut self, rt: &R) -> Fetch
        requires { self.old.hand ≡ None }
        ensures leaves { LeavesFetch P.total P.writable P.stands P.fits self.old result self.new }
        ensures limits { IsWriteEnd P.total P.writable P.stands P.fits self.new }
    {
        self.give_back(rt);
        match self.outlet.next(rt) {
            Some(hand) => {
                let page = hand.page;
                self.hand = Some(hand);
                Fetch::Got(page)
            }
            None => Fetch::Empty,
        }
    }

    /// Drops the page in hand, or the next of the queue. Its buffer goes back as a spare.
    pub fn discard<R: Wait>(&mut self, rt: &R) -> Discard
        ensures leaves { LeavesDiscard P.total P.writable P.stands P.fits self.old result self.new }
        ensures done { (result ≡ Done) ↔ IsDrained P.total P.writable P.stands P.fits self.old }
        ensures limits { IsWriteEnd P.total P.writable P.stands P.fits self.new }
    {
        self.give_back(rt);
        match self.hand.take() {
            Some(hand) => self.drop_page(rt, hand),
            None => self.drop_next(rt),
        }
    }

    /// Whether no page is in hand, and not all have come out of the queue.
    pub(crate) fn lacks_page(&self) -> bool
        ensures lacks { result ≡ true ↔ LacksPage P.total P.writable P.stands P.fits self.now }
        ensures limits { IsWriteEnd P.total P.writable P.stands P.fits self.now }
    {
        self.hand.is_none() && !self.outlet.is_drained()
    }

    // Gives the emptied buffer back. The queue of the spares has room for all of them.
    fn give_back<R: Wait>(&mut self, rt: &R)
        ensures same { self.new ≡ self.old }
        ensures limits { IsWriteEnd P.total P.writable P.stands P.fits self.new }
    {
        if let Some(page) = self.emptied.take() {
            self.emptied = self.spares.push(rt, page).err();
        }
    }

    // Hands the page over that was in hand: its buffer is swapped with the caller's.
    fn hand_over(&mut self, hand: InHand, into: &mut PageBuf) -> Taken
        requires none { self.old.hand ≡ None }
        requires page { hand.page < P.total self.old.outlet.from }
        requires came { is_listed self.old.outlet.out hand.page ≡ true }
        ensures answer { result ≡ takes.Copied }
        ensures after { self.new ≡ after_take self.old hand.page takes.Copied }
        ensures bytes { into.new ≡ hand.bytes }
    {
        let InHand { page, mut bytes } = hand;
        mem::swap(into, &mut bytes);
        self.emptied = Some(bytes);
        self.writable[page as usize] = true;
        Taken::Copied
    }

    // Drops this page, which is in hand no more.
    fn drop_page<R: Wait>(&mut self, rt: &R, hand: InHand) -> Discard
        ensures same { self.new ≡ self.old }
        ensures took { result ≡ Took hand.page }
        ensures limits { IsWriteEnd P.total P.writable P.stands P.fits self.new }
    {
        self.emptied = Some(hand.bytes);
        self.give_back(rt);
        Discard::Took(hand.page)
    }

    // Drops the next page of the queue, where not all have come out.
    fn drop_next<R: Wait>(&mut self, rt: &R) -> Discard
        requires { self.old.hand ≡ None }
        ensures leaves { LeavesDiscard P.total P.writable P.stands P.fits self.old result self.new }
        ensures done { (result ≡ Done) ↔ IsDrained P.total P.writable P.stands P.fits self.old }
        ensures limits { IsWriteEnd P.total P.writable P.stands P.fits self.new }
    {
        if self.outlet.is_drained() {
            return Discard::Done;
        }
        match self.outlet.next(rt) {
            Some(hand) => self.drop_page(rt, hand),
            None => Discard::Again,
        }
    }
}

impl<P: Plant> Plant for WriteEnd<P> {
    ghost use Rattle.write_pipe.specs.WriteLaws.{end_flags, end_one_list};

    type Rest = Outlet<P>;

    ghost total = { λ d. P.total d.outlet.from };

    ghost writable = { λ d. d.writable };

    ghost picked = { λ d. d.picked };

    ghost busy = { λ d. d.busy };

    ghost rest = { λ d. d.outlet };

    ghost stands = { λ d. P.stands d.outlet.from };

    ghost fits = { IsWriteEnd P.total P.writable P.stands P.fits };

    ghost picks = { λ d. d.picks };

    ghost last = { λ d. d.last };

    ghost queue = { λ d. None };

    ghost flags = { end_flags P.total P.writable P.stands P.fits };

    ghost one_list = { end_one_list P.total P.writable P.stands P.fits P.one_list };

    fn pick(&mut self) -> Pick
        requires { IsWriteEnd P.total P.writable P.stands P.fits self.old }
        ensures leaves { LeavesPick (write_state P.total P.writable P.stands P.fits self.old) (write_state P.total P.writable P.stands P.fits self.new) result }
        ensures answer { result ≡ pick_from self.old.hand }
        ensures after { self.new ≡ after_pick self.old }
    {
        let answer = match &self.hand {
            Some(hand) => {
                self.picked[hand.page as usize] = true;
                Pick::Fault(hand.page)
            }
            None => {
                self.busy = self.busy.saturating_add(1);
                Pick::Busy
            }
        };
        self.picks = self.picks.saturating_add(1);
        self.last = Some(answer);
        answer
    }

    fn take(&mut self, page: u32, into: &mut PageBuf) -> Taken
        requires fits { IsWriteEnd P.total P.writable P.stands P.fits self.old }
        requires page { page < P.total self.old.outlet.from }
        ensures leaves { LeavesTake (write_state P.total P.writable P.stands P.fits self.old) (write_state P.total P.writable P.stands P.fits self.new) page into.old into.new result }
        ensures answer { result ≡ taken_by (is_held self.old.hand page) (is_open self.old.writable page) }
        ensures after { self.new ≡ after_take self.old page result }
    {
        match self.hand.take() {
            Some(hand) => {
                if hand.page == page {
                    return self.hand_over(hand, into);
                }
                self.hand = Some(hand);
            }
            None => {}
        }
        if self.writable[page as usize] {
            return Taken::Stale;
        }
        self.busy = self.busy.saturating_add(1);
        Taken::Busy
    }
}
