ghost use Rattle.std.specs.Prelude.{◌≡◌, ◌<◌, ◌+◌, ◌-◌, ◌^◌, IfSome, None, false, is_some, length, slice_set, true, if◌then◌else◌};
ghost use Rattle.ram_block.specs.PageLinks.{is_listed};
ghost use Rattle.page_cell.specs.Plant.{KeepsPlant};
ghost use Rattle.bg_saver.specs.Members.{plant_state};
ghost use Rattle.bg_saver.specs.Turn.{LeavesNoPick, counts_with};
ghost use Rattle.write_pipe.specs.CopyEnd.{IsCopied, IsCopyEnd, IsOfCopy, LeavesPicked, LeavesPush, LeavesSpare, LeavesTaken, LeavesTurn, without_page};

use crate::CopyTurn;
use crate::inlet::Inlet;
use crate::outlet::InHand;
use bg_saver::Counts;
use crossbeam_queue::ArrayQueue;
use page_cell::{PageBuf, Pick, Plant, Taken};
use page_sweep::Sweep;
use std::alloc::Global;
use std::marker::Model;
use std::sync::{Arc, Wait};

/// The page that is taken next, and whether a pick gave it.
#[derive(Clone, Copy, Debug, PartialEq, Eq)]
pub(crate) struct Wanted {
    pub(crate) page: u32,
    pub(crate) picked: bool,
}

/// The end of the relay at which pages are copied out of the plant.
#[derive(Drop)]
pub struct CopyEnd<P: Plant> {
    pub(crate) inlet: Inlet<P>,
    // Buffers that have been emptied.
    pub(crate) spares: Arc<ArrayQueue<PageBuf>, Global>,
    // A spare buffer that a turn took and didn't fill.
    pub(crate) spare: Option<PageBuf>,
    pub(crate) pages: u32,
    pub(crate) sweep: Sweep,
    pub(crate) hand: Option<InHand>,
    pub(crate) wanted: Option<Wanted>,
    pub(crate) counts: Counts,
    // For each page whether `faults` counts it.
    pub(crate) faulted: Vec<bool>,
    pub(crate) found_none: u64,
}

impl<P: Plant> Model for CopyEnd<P> {
    ghost use Rattle.write_pipe.specs.CopyEnd.{CopyData, IsCopyInside, copy_end_of};

    ghost Value = { CopyData P };

    ghost view = { copy_end_of };

    ghost invariant = { IsCopyInside P.total P.stands };
}

impl<P: Plant> CopyEnd<P> {
    /// Pushes the page in hand, or takes the next page and pushes it.
    pub fn turn<R: Wait>(&mut self, rt: &R, plant: &mut P) -> CopyTurn
        requires { IsOfCopy P.total P.stands self.old (plant_state P.Plant plant.old) }
        ensures leaves { LeavesTurn self.old (plant.new ≡ plant.old) (plant_state P.Plant plant.old) (plant_state P.Plant plant.new) result self.new }
        ensures of_copy { IsOfCopy P.total P.stands self.new (plant_state P.Plant plant.new) }
        ensures limits { IsCopyEnd P.total P.stands self.new }
    {
        if let Some(hand) = self.hand.take() {
            return self.push(rt, hand);
        }
        let Some(first) = self.sweep.first() else {
            return CopyTurn::Done;
        };
        let Some(page) = self.spare_page(rt) else {
            return CopyTurn::NoSpare;
        };
        match self.next_page(plant, first) {
            Some(taken) => self.take_page(rt, plant, taken, page),
            None => {
                self.spare = Some(page);
                CopyTurn::Again
            }
        }
    }

    // Pushes this page, which was in hand.
    fn push<R: Wait>(&mut self, rt: &R, hand: InHand) -> CopyTurn
        requires none { self.old.hand ≡ None }
        requires copied { IsCopied P.total P.stands self.old.inlet self.old.left hand }
        ensures push { LeavesPush self.old hand result self.new }
        ensures limits { IsCopyEnd P.total P.stands self.new }
    {
        let page = hand.page;
        match self.inlet.send(rt, hand) {
            None => CopyTurn::Passed(page),
            Some(back) => {
                self.hand = Some(back);
                CopyTurn::Full
            }
        }
    }

    // A spare buffer, or none where a pop found none.
    fn spare_page<R: Wait>(&mut self, rt: &R) -> Option<PageBuf>
        ensures spare { LeavesSpare self.old (is_some result) self.new }
        ensures limits { IsCopyEnd P.total P.stands self.new }
    {
        if let Some(page) = self.spare.take() {
            return Some(page);
        }
        let popped = self.spares.pop(rt);
        if popped.is_none() {
            self.found_none = self.found_none.saturating_add(1);
        }
        popped
    }

    // The page that is taken next, by a pick unless there is one from an Again; none where the plant's queue was found held.
    fn next_page(&self, plant: &mut P, first: u32) -> Option<Wanted>
        requires of_copy { IsOfCopy P.total P.stands self.now (plant_state P.Plant plant.old) }
        requires first { first < P.total self.now.inlet.from }
        ensures picked { LeavesPicked self.now.wanted first (plant_state P.Plant plant.old) (plant_state P.Plant plant.new) result }
        ensures below { IfSome result (λ next. next.page < P.total self.now.inlet.from) }
        ensures limits { IsCopyEnd P.total P.stands self.now }
    {
        match self.wanted {
            Some(wanted) => Some(wanted),
            None => match plant.pick() {
                Pick::Fault(page) => Some(Wanted { page, picked: true }),
                Pick::Empty => Some(Wanted {
                    page: first,
                    picked: false,
                }),
                Pick::Busy => None,
            },
        }
    }

    // Takes this page into the buffer, and pushes it.
    fn take_page<R: Wait>(
        &mut self,
        rt: &R,
        plant: &mut P,
        taken: Wanted,
        page: PageBuf,
    ) -> CopyTurn
        requires none { self.old.hand ≡ None }
        requires of_copy { IsOfCopy P.total P.stands (record self.old { wanted = None }) (plant_state P.Plant plant.old) }
        requires page { taken.page < P.total self.old.inlet.from }
        ensures keeps { KeepsPlant (plant_state P.Plant plant.old) (plant_state P.Plant plant.new) }
        ensures no_pick { LeavesNoPick (plant_state P.Plant plant.old) (plant_state P.Plant plant.new) }
        ensures taken { LeavesTaken self.old (plant_state P.Plant plant.old) (plant_state P.Plant plant.new) taken result self.new }
        ensures limits { IsCopyEnd P.total P.stands self.new }
    {
        let mut page = page;
        match plant.take(taken.page, &mut page) {
            Taken::Busy => {
                self.wanted = Some(taken);
                self.spare = Some(page);
                CopyTurn::Again
            }
            Taken::Stale => {
                self.wanted = None;
                self.spare = Some(page);
                CopyTurn::Skipped(taken.page)
            }
            Taken::Copied => {
                self.copied(taken);
                self.push(
                    rt,
                    InHand {
                        page: taken.page,
                        bytes: page,
                    },
                )
            }
        }
    }

    // A page was copied: it is left no more, and it is counted.
    fn copied(&mut self, taken: Wanted)
        requires none { self.old.hand ≡ None }
        requires page { taken.page < P.total self.old.inlet.from }
        requires left { is_listed self.old.left taken.page ≡ true }
        ensures copied { self.new ≡ without_page self.old taken }
        ensures unsent { is_listed self.old.inlet.sent taken.page ≡ false }
        ensures limits { IsCopyEnd P.total P.stands self.new }
    {
        self.sweep.remove(taken.page);
        self.wanted = None;
        count(&mut self.counts, &mut self.faulted, taken);
    }

    /// How many pages were copied, by where they came from.
    pub fn counts(&self) -> Counts
        ensures counts { result ≡ self.now.counts }
        ensures limits { IsCopyEnd P.total P.stands self.now }
    {
        self.counts
    }
}

// Counts a page by where it came from.
fn count(counts: &mut Counts, faulted: &mut Vec<bool>, taken: Wanted)
    requires page { taken.page < length faulted.old.items }
    requires room { counts.old.faults + counts.old.sweep < 2 ^ 32 - 1 }
    ensures counts { counts.new ≡ counts_with counts.old taken.picked }
    ensures faulted { faulted.new.items ≡ (if taken.picked then slice_set faulted.old.items taken.page true else faulted.old.items) }
{
    if taken.picked {
        counts.faults += 1;
        faulted[taken.page as usize] = true;
    } else {
        counts.sweep += 1;
    }
}
