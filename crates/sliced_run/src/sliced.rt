ghost use Rattle.std.specs.Prelude.{◌≡◌, ◌<◌, ◌≤◌, ◌+◌, ◌*◌, ◌∷◌, [], ℕ, All, None, Some, length, slice_get};
ghost use Rattle.medium.specs.Members.{file_state};
ghost use Rattle.vm_words.specs.Turns.{IsTurn};
ghost use Rattle.vm_words.specs.declared.turns.TurnOf.{TurnOf as Turn_of};
ghost use Rattle.vm_words.specs.declared.turns.TurnOf.TheVariants.{Saver as saver};
ghost use Rattle.sliced_run.specs.CoreRun.{rounds_of, saver_turns};
ghost use Rattle.sliced_run.specs.Sliced.{HasEnded, HasRun, IsSliced, IsWritten, RoundTaken, SlicedData, TurnsTaken, VcpuTurnsTaken, taken_by};

use bg_saver::{SaveEnd, Saver, Turn};
use medium::Medium;
use plain_bus::{PlainBus, StepAnswer};
use std::marker::Model;
use vm_words::{TurnOf, Turns};

/// A phase on one thread that goes on: the bus, the saver over it, and how the save ended, if it has.
#[derive(Drop)]
pub(crate) struct Sliced {
    pub(crate) bus: PlainBus,
    pub(crate) saver: Saver,
    pub(crate) saved: Option<SaveEnd>,
}

impl Model for Sliced {
    ghost use Rattle.sliced_run.specs.Sliced.{SlicedData};

    ghost Value = { SlicedData };

    ghost view = { λ s. record { bus = s.bus; saver = s.saver; saved = s.saved } };
}

impl Sliced {
    /// The turns of a line.
    pub(crate) fn take_turns<M: Medium>(&mut self, turns: &Turns, medium: &mut M)
        requires phase { IsSliced self.old.bus.instant self.old.bus.run self.old }
        requires file { IsWritten self.old.bus.instant self.old (file_state M.Readable medium.old) }
        requires turns { All (IsTurn self.old.bus.instant.shape.vcpus) turns.now }
        ensures { TurnsTaken M.Readable self.old.bus.instant self.old.bus.run turns.now self.old self.new medium.old medium.new }
    {
        for i in 0..turns.count() {
            self.take_turn_at(turns, i, medium);
        }
    }

    // The turn of this number, counted from 0.
    fn take_turn_at<M: Medium>(&mut self, turns: &Turns, i: usize, medium: &mut M)
        requires phase { IsSliced self.old.bus.instant self.old.bus.run self.old }
        requires file { IsWritten self.old.bus.instant self.old (file_state M.Readable medium.old) }
        requires turns { All (IsTurn self.old.bus.instant.shape.vcpus) turns.now }
        requires place { i < length turns.now }
        ensures { (turn : Turn_of) → slice_get turns.now i ≡ Some turn → TurnsTaken M.Readable self.old.bus.instant self.old.bus.run (turn ∷ []) self.old self.new medium.old medium.new }
    {
        if let Some(turn) = turns.get(i) {
            self.take_turn(turn, medium);
        }
    }

    fn take_turn<M: Medium>(&mut self, turn: TurnOf, medium: &mut M)
        requires phase { IsSliced self.old.bus.instant self.old.bus.run self.old }
        requires file { IsWritten self.old.bus.instant self.old (file_state M.Readable medium.old) }
        requires turn { IsTurn self.old.bus.instant.shape.vcpus turn }
        ensures { TurnsTaken M.Readable self.old.bus.instant self.old.bus.run (turn ∷ []) self.old self.new medium.old medium.new }
    {
        match turn {
            TurnOf::Cpu(k) => {
                self.bus.try_step(k);
            }
            TurnOf::Saver => self.saver_turn(medium),
        }
    }

    /// The saver's turns until the save has ended: at most one for each page, and one that ends it.
    pub(crate) fn end_save<M: Medium>(&mut self, medium: &mut M)
        requires phase { IsSliced self.old.bus.instant self.old.bus.run self.old }
        requires file { IsWritten self.old.bus.instant self.old (file_state M.Readable medium.old) }
        ensures turns { TurnsTaken M.Readable self.old.bus.instant self.old.bus.run (saver_turns self.old.bus.instant) self.old self.new medium.old medium.new }
        ensures ended { HasEnded self.new }
    {
        for _ in 0..self.bus.shape().total_pages() + 1 {
            self.saver_turn(medium);
        }
    }

    // The saver's turn, unless the save has ended.
    fn saver_turn<M: Medium>(&mut self, medium: &mut M)
        requires phase { IsSliced self.old.bus.instant self.old.bus.run self.old }
        requires file { IsWritten self.old.bus.instant self.old (file_state M.Readable medium.old) }
        ensures turns { TurnsTaken M.Readable self.old.bus.instant self.old.bus.run (saver ∷ []) self.old self.new medium.old medium.new }
        ensures more { self.new.saved ≡ None → taken_by self.new ≡ taken_by self.old + 1 }
    {
        if self.saved.is_some() {
            return;
        }
        match self.saver.turn(&mut self.bus, medium) {
            Turn::Complete => self.saved = Some(SaveEnd::Complete),
            // No lock of this bus is ever found held, so one call makes each page writable.
            Turn::Failed => {
                self.saver.release(&mut self.bus);
                self.saved = Some(SaveEnd::Failed);
            }
            Turn::Saved(_) | Turn::Skipped(_) | Turn::Again => {}
        }
    }

    /// Rounds until the phase of each vCPU has ended: an instruction has at most two events.
    pub(crate) fn end_rounds(&mut self, run: u32)
        requires phase { IsSliced self.old.bus.instant run self.old }
        requires ended { HasEnded self.old }
        ensures rounds { VcpuTurnsTaken self.old.bus.instant run (rounds_of self.old.bus.instant (2 * run)) self.old self.new }
        ensures over { HasRun self.old.bus.instant run self.new }
    {
        for _ in 0..2 * run {
            if self.round() == 0 {
                return;
            }
        }
    }

    // One round: each vCPU has its turn, by number. How many of them made an event.
    fn round(&mut self) -> u32
        requires phase { IsSliced self.old.bus.instant self.old.bus.run self.old }
        requires ended { HasEnded self.old }
        ensures { RoundTaken self.old.bus.instant self.old.bus.run (length self.old.bus.instant.vcpus) result self.old self.new }
    {
        let mut events = 0;
        for k in 0..self.bus.shape().vcpus() {
            events += self.step(k);
        }
        events
    }

    // The turn of vCPU k, once the save has ended: how many events it made, 1 or none.
    fn step(&mut self, k: u32) -> u32
        requires phase { IsSliced self.old.bus.instant self.old.bus.run self.old }
        requires vcpu { k < length self.old.bus.instant.vcpus }
        ensures most { result ≤ 1 }
        ensures turn { (start : SlicedData) (events : ℕ) → HasEnded start → RoundTaken self.old.bus.instant self.old.bus.run k events start self.old
            → RoundTaken self.old.bus.instant self.old.bus.run (k + 1) (events + result) start self.new }
    {
        if let StepAnswer::Idle = self.bus.try_step(k) {
            return 0;
        }
        1
    }
}
