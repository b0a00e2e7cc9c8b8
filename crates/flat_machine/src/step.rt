ghost use Rattle.std.specs.Prelude.{◌≡◌, ◌<◌, ◌≤◌, ◌+◌, ◌^◌, ◌↔◌, ℕ, All, Some, true};
ghost use Rattle.rv64i_step.specs.Request.{CanServe};
ghost use Rattle.flat_machine.specs.Cell.{cell_at, content, content_after, gives, with_content};
ghost use Rattle.flat_machine.specs.Machine.{IsMachine};
ghost use Rattle.flat_machine.specs.Next.{cell_of};
ghost use Rattle.flat_machine.specs.Run.{halted_at, steps_of};
ghost use Rattle.flat_machine.specs.declared.step.Stepped.TheVariants.{Halted};

use crate::ram::apply_to_ram;
use crate::vcpus::{access_into, fetch_into, request_of};
use crate::{Machine, apply_to_serial, apply_to_timer};
use ram_block::Place;
use rv64i_step::Request;

/// Whether a vCPU made an event.
#[derive(Clone, Copy, Debug, PartialEq, Eq)]
pub enum Stepped {
    Event,
    /// The vCPU is halted, and nothing has changed.
    Halted,
}

#[tactic(auto, using(crate::proofs::Pages::ram_len))]
impl Machine {
    ghost use Rattle.flat_machine.specs.Step.{StepsTo};

    /// One event of vCPU k.
    #[tactic(auto, using(crate::proofs::Served::serving, crate::proofs::Pages::ram_len), unfolding(crate::specs::Next::next, crate::specs::Next::cell_of, crate::specs::Next::vcpu_after, crate::specs::Cell::gives, crate::specs::Cell::content_after))]
    #[inline(always)]
    pub fn step(&mut self, k: u32) -> Stepped
        requires vcpu { k < self.old.shape.vcpus }
        requires clock { self.old.clock < 2 ^ 63 }
        requires steps { steps_of self.old k < 2 ^ 63 }
        ensures event { StepsTo self.old k result self.new }
        ensures halted { (result ≡ Halted) ↔ (halted_at self.old k ≡ true) }
        ensures shape { self.new.shape ≡ self.old.shape }
        ensures clock { self.new.clock ≤ self.old.clock + 1 }
        ensures steps { (most : ℕ) → All (λ v. v.steps ≤ most) self.old.vcpus → All (λ v. v.steps ≤ most + 1) self.new.vcpus }
        ensures limits { IsMachine self.new }
    {
        let request = request_of(&self.vcpus, k as usize, &self.shape);
        match request {
            Request::Nothing => return Stepped::Halted,
            Request::NoFetch(_) => fetch_into(&mut self.vcpus, k as usize, &self.shape, None),
            Request::Fetch { page, .. } => {
                let word = apply_to_ram(&mut self.ram, page, &request) as u32;
                fetch_into(&mut self.vcpus, k as usize, &self.shape, Some(word));
            }
            Request::Load { place, .. }
            | Request::Store { place, .. }
            | Request::Amo { place, .. } => {
                let value = self.serve(place, &request);
                access_into(&mut self.vcpus, k as usize, &self.shape, value);
            }
        }
        self.clock += 1;
        Stepped::Event
    }

    // The part of an event that the cell of a place has.
    #[tactic(auto, using(crate::proofs::Served::serving, crate::proofs::Pages::ram_len), unfolding(crate::specs::Cell::gives, crate::specs::Cell::content_after, crate::specs::Next::cell_of))]
    #[inline(always)]
    fn serve(&mut self, place: Place, request: &Request) -> u64
        requires can { CanServe self.old.shape request.now }
        requires place { cell_of request.now ≡ Some (cell_at place) }
        ensures gives { result ≡ gives request.now (content self.old (cell_at place)) self.old.clock }
        ensures after { self.new ≡ with_content self.old (cell_at place) (content_after request.now (content self.old (cell_at place))) }
        ensures shape { self.new.shape ≡ self.old.shape }
        ensures vcpus { self.new.vcpus ≡ self.old.vcpus }
        ensures clock { self.new.clock ≡ self.old.clock }
        ensures limits { IsMachine self.new }
    {
        match place {
            Place::Ram { page, .. } => apply_to_ram(&mut self.ram, page, request),
            Place::Serial(_) => apply_to_serial(&mut self.serial, request),
            Place::Timer(_) => apply_to_timer(&mut self.timer, request, self.clock),
        }
    }
}
