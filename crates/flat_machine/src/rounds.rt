ghost use Rattle.std.specs.Prelude.{◌≡◌, ◌<◌, ◌≤◌, ◌+◌, ◌*◌, ◌^◌, ℕ, List, [], length, map, slice_index, Some, IfOk, OnErr, All};
ghost use Rattle.flat_machine.specs.Machine.{IsMachine, Rest};
ghost use Rattle.flat_machine.specs.Run.{Phase, ended_at, ends_of, round, rounds, rounds_on, rounds_run, run, steps_of, turn, vcpu_ended};

use crate::{Machine, Order, Stepped};
use ram_block::{MAX_PHASE, NoMemory};
use rv64i_step::{State, Vcpu};
use std::alloc::{AllocError, Global};

#[tactic(auto, using(crate::proofs::Pages::ram_len))]
impl Machine {
    /// Runs a phase of n instructions by rounds: in each, every vCPU whose phase has not ended makes one event, by
    /// number. All memory is taken first.
    #[tactic(auto, unfolding(crate::specs::Run::rounds_run, crate::specs::Run::ends_of))]
    pub fn rounds(&mut self, alloc: Global, n: u32) -> Result<Order, NoMemory>
        requires rest { Rest self.old }
        requires most { n ≤ MAX_PHASE }
        ensures order { IfOk result (λ o. o.members ≡ rounds self.old n) }
        ensures run { IfOk result (λ o. run self.old o.members ≡ Some self.new) }
        ensures phase { IfOk result (λ o. Phase self.old n o.members) }
        ensures no_memory { OnErr result (self.new ≡ self.old) }
    {
        let ends = phase_ends(alloc, &self.vcpus, n)?;
        let most = 2 * n;
        let mut order = Order::with_room(alloc, ends.len() * most as usize)?;
        self.make_rounds(&ends, most, &mut order);
        Ok(order)
    }

    // So many rounds, or fewer where no phase goes on.
    #[tactic(auto, using(crate::proofs::Turns::room_left))]
    fn make_rounds(&mut self, ends: &[u64], most: u32, order: &mut Order)
        requires vcpus { length ends.now ≡ self.old.shape.vcpus }
        requires most { most ≤ 2_000_000 }
        requires clock { self.old.clock ≤ 2 ^ 62 }
        requires steps { All (λ v. v.steps ≤ 2 ^ 62) self.old.vcpus }
        requires empty { order.old.members ≡ [] }
        requires room { length ends.now * most ≤ order.old.room }
        ensures { record { machine = self.new; order = order.new.members } ≡ rounds_on ends.now most (record { machine = self.old; order = [] }) }
    {
        for done in 0..most {
            let before = order.count();
            self.round(ends, order);
            if order.count() == before {
                return;
            }
        }
    }

    // One round: each vCPU has its turn, by number.
    fn round(&mut self, ends: &[u64], order: &mut Order)
        requires vcpus { length ends.now ≡ self.old.shape.vcpus }
        requires clock { self.old.clock + 8 ≤ 2 ^ 63 }
        requires steps { All (λ v. v.steps + 8 ≤ 2 ^ 63) self.old.vcpus }
        requires room { length order.old.members + length ends.now ≤ order.old.room }
        ensures round { record { machine = self.new; order = order.new.members } ≡ round ends.now (record { machine = self.old; order = order.old.members }) }
        ensures shape { self.new.shape ≡ self.old.shape }
        ensures clock { self.new.clock ≤ self.old.clock + 8 }
        ensures steps { (most : ℕ) → All (λ v. v.steps ≤ most) self.old.vcpus → All (λ v. v.steps ≤ most + 8) self.new.vcpus }
        ensures count { length order.new.members ≤ length order.old.members + length ends.now }
        ensures no_fewer { length order.old.members ≤ length order.new.members }
        ensures room { order.new.room ≡ order.old.room }
    {
        for k in 0..self.shape.vcpus() {
            self.turn(k, ends[k as usize], order);
        }
    }

    // The turn of vCPU k, whose phase ends at this count of steps: one event, unless the phase has ended.
    #[tactic(auto, unfolding(crate::specs::Run::turn))]
    #[inline(always)]
    fn turn(&mut self, k: u32, until: u64, order: &mut Order)
        requires vcpu { k < self.old.shape.vcpus }
        requires clock { self.old.clock < 2 ^ 63 }
        requires steps { steps_of self.old k < 2 ^ 63 }
        requires room { length order.old.members < order.old.room }
        ensures turn { (ends : List ℕ) → slice_index ends k ≡ until → record { machine = self.new; order = order.new.members } ≡ turn ends (record { machine = self.old; order = order.old.members }) k }
        ensures shape { self.new.shape ≡ self.old.shape }
        ensures clock { self.new.clock ≤ self.old.clock + 1 }
        ensures steps { (most : ℕ) → All (λ v. v.steps ≤ most) self.old.vcpus → All (λ v. v.steps ≤ most + 1) self.new.vcpus }
        ensures count { length order.new.members ≤ length order.old.members + 1 }
        ensures no_fewer { length order.old.members ≤ length order.new.members }
        ensures room { order.new.room ≡ order.old.room }
        ensures limits { IsMachine self.new }
    {
        if self.has_ended(k, until) {
            return;
        }
        if let Stepped::Event = self.step(k) {
            order.push(k as u8);
        }
    }

    // Whether the phase of vCPU k that ends at this count of steps has ended.
    #[inline(always)]
    fn has_ended(&self, k: u32, until: u64) -> bool
        requires { k < self.now.shape.vcpus }
        ensures ended { result ≡ ended_at until self.now k }
        ensures limits { IsMachine self.now }
    {
        phase_has_ended(&self.vcpus[k as usize], until)
    }
}

/// Whether a vCPU's phase that ends at this count of steps has ended.
#[inline(always)]
pub fn phase_has_ended(vcpu: &Vcpu, until: u64) -> bool
    ensures { result ≡ vcpu_ended until vcpu.now }
{
    match vcpu.state() {
        State::Halted(_) => true,
        State::Running => vcpu.steps() == until,
    }
}

// The counts of steps at which the phases of n instructions end.
fn phase_ends(alloc: Global, vcpus: &[Vcpu], n: u32) -> Result<Vec<u64>, AllocError>
    requires { All (λ v. v.steps ≤ 2 ^ 62) vcpus.now }
    ensures { IfOk result (λ ends. ends.items ≡ map (λ v. v.steps + n) vcpus.now) }
{
    let mut ends = Vec::with_capacity(alloc, vcpus.len())?;
    for vcpu in vcpus {
        ends.push(vcpu.steps() + u64::from(n))?;
    }
    Ok(ends)
}
