ghost use Rattle.std.specs.Prelude.{◌≡◌, ◌<◌, ◌≤◌, ◌+◌, ◌*◌, ◌^◌, ℕ, List, [], length, map, slice_index, IfOk, IfErr, OnOk, IfSome};
ghost use Rattle.flat_machine.specs.Machine.{Rest};
ghost use Rattle.flat_machine.specs.Run.{ended_at, round, rounds_on, steps_of, turn};
ghost use Rattle.medium.specs.Members.{file_state};
ghost use Rattle.medium.specs.States.{Leaves};
ghost use Rattle.ram_block.specs.declared.limits.TheConstants.{MAX_PHASE};
ghost use Rattle.vm_cli.specs.LazyRun.{FailsToRun, GoesOnTold, IsUncut, IsUnread, RunsPhase, page_fault_of};

use crate::Fault;
use flat_machine::{Order, phase_has_ended};
use lazy_restore::{Lazy, LazyStep};
use loader::Refusal;
use medium::{Medium, Readable};
use page_peek::PageFault;
use std::alloc::{AllocError, Global};

/// Runs a phase of n instructions by rounds, in the order in which a whole machine runs it. All memory is taken first.
pub(crate) fn run_lazily<M: Medium>(
    alloc: Global,
    lazy: &mut Lazy<'_, M>,
    n: u32,
) -> Result<Order, Fault>
    requires rest { Rest lazy.old.held.machine }
    requires most { n ≤ MAX_PHASE }
    requires untouched { lazy.old.held.touched ≡ [] }
    requires uncut { IsUncut (M.Readable.told lazy.old.medium.now) lazy.old.held }
    ensures ran { IfOk result (λ order. IfSome (M.Readable.told lazy.old.medium.now) (λ file. RunsPhase n file lazy.old.held order.members lazy.new.held)) }
    ensures unread { IfErr result (FailsToRun (file_state M.Readable lazy.old.medium.now) (file_state M.Readable lazy.new.medium.now)) }
    ensures uncut { IsUncut (M.Readable.told lazy.new.medium.now) lazy.new.held }
    ensures same_medium { lazy.new.medium.ghost_name ≡ lazy.old.medium.ghost_name }
    ensures leaves { Leaves (file_state M.Readable lazy.old.medium.now) (file_state M.Readable lazy.new.medium.now) }
{
    let ends = phase_ends(alloc, lazy, n)?;
    let most = 2 * n;
    let mut order = Order::with_room(alloc, ends.len() * most as usize)?;
    if let Err(fault) = make_rounds(lazy, &ends, most, &mut order) {
        return Err(fault);
    }
    Ok(order)
}

// The counts of steps at which the phases of n instructions end.
fn phase_ends<M: Medium>(alloc: Global, lazy: &Lazy<'_, M>, n: u32) -> Result<Vec<u64>, AllocError>
    requires rest { Rest lazy.now.held.machine }
    ensures ends { IfOk result (λ ends. ends.items ≡ map (λ v. v.steps + n) lazy.now.held.machine.vcpus) }
    ensures count { IfOk result (λ ends. length ends.items ≡ lazy.now.held.machine.shape.vcpus) }
    ensures few { IfOk result (λ ends. length ends.items ≤ 8) }
{
    let vcpus = lazy.shape().vcpus();
    let mut ends = Vec::with_capacity(alloc, vcpus as usize)?;
    for k in 0..vcpus {
        ends.push(lazy.vcpu(k).steps() + u64::from(n))?;
    }
    Ok(ends)
}

// So many rounds.
fn make_rounds<M: Medium>(
    lazy: &mut Lazy<'_, M>,
    ends: &[u64],
    most: u32,
    order: &mut Order,
) -> Result<(), Fault>
    requires vcpus { length ends.now ≡ lazy.old.held.machine.shape.vcpus }
    requires most { most ≤ 2_000_000 }
    requires clock { lazy.old.held.machine.clock ≤ 2 ^ 62 }
    requires steps { (j : ℕ) → steps_of lazy.old.held.machine j ≤ 2 ^ 62 }
    requires empty { order.old.members ≡ [] }
    requires room { length ends.now * most ≤ order.old.room }
    requires uncut { IsUncut (M.Readable.told lazy.old.medium.now) lazy.old.held }
    ensures rounds { OnOk result (GoesOnTold (M.Readable.told lazy.old.medium.now) (rounds_on ends.now most) lazy.old.held [] lazy.new.held order.new.members) }
    ensures unread { IfErr result (IsUnread (file_state M.Readable lazy.old.medium.now) (file_state M.Readable lazy.new.medium.now)) }
    ensures uncut { IsUncut (M.Readable.told lazy.new.medium.now) lazy.new.held }
    ensures same_medium { lazy.new.medium.ghost_name ≡ lazy.old.medium.ghost_name }
    ensures leaves { Leaves (file_state M.Readable lazy.old.medium.now) (file_state M.Readable lazy.new.medium.now) }
{
    for done in 0..most {
        if let Err(fault) = round(lazy, ends, order) {
            return Err(fault);
        }
    }
    Ok(())
}

// One round: each vCPU has its turn, by number.
fn round<M: Medium>(lazy: &mut Lazy<'_, M>, ends: &[u64], order: &mut Order) -> Result<(), Fault>
    requires vcpus { length ends.now ≡ lazy.old.held.machine.shape.vcpus }
    requires clock { lazy.old.held.machine.clock + 8 ≤ 2 ^ 63 }
    requires steps { (j : ℕ) → steps_of lazy.old.held.machine j + 8 ≤ 2 ^ 63 }
    requires room { length order.old.members + length ends.now ≤ order.old.room }
    requires uncut { IsUncut (M.Readable.told lazy.old.medium.now) lazy.old.held }
    ensures round { OnOk result (GoesOnTold (M.Readable.told lazy.old.medium.now) (round ends.now) lazy.old.held order.old.members lazy.new.held order.new.members) }
    ensures unread { IfErr result (IsUnread (file_state M.Readable lazy.old.medium.now) (file_state M.Readable lazy.new.medium.now)) }
    ensures shape { lazy.new.held.machine.shape ≡ lazy.old.held.machine.shape }
    ensures clock { lazy.new.held.machine.clock ≤ lazy.old.held.machine.clock + 8 }
    ensures steps { (most : ℕ) → ((j : ℕ) → steps_of lazy.old.held.machine j ≤ most) → (j : ℕ) → steps_of lazy.new.held.machine j ≤ most + 8 }
    ensures count { length order.new.members ≤ length order.old.members + length ends.now }
    ensures room { order.new.room ≡ order.old.room }
    ensures uncut { IsUncut (M.Readable.told lazy.new.medium.now) lazy.new.held }
    ensures same_medium { lazy.new.medium.ghost_name ≡ lazy.old.medium.ghost_name }
    ensures leaves { Leaves (file_state M.Readable lazy.old.medium.now) (file_state M.Readable lazy.new.medium.now) }
{
    for k in 0..lazy.shape().vcpus() {
        if let Err(fault) = turn(lazy, k, ends[k as usize], order) {
            return Err(fault);
        }
    }
    Ok(())
}

// The turn of vCPU k, whose phase ends at this count of steps: one event, unless the phase has ended.
fn turn<M: Medium>(
    lazy: &mut Lazy<'_, M>,
    k: u32,
    until: u64,
    order: &mut Order,
) -> Result<(), Fault>
    requires vcpu { k < lazy.old.held.machine.shape.vcpus }
    requires clock { lazy.old.held.machine.clock < 2 ^ 63 }
    requires steps { steps_of lazy.old.held.machine k < 2 ^ 63 }
    requires room { length order.old.members < order.old.room }
    requires uncut { IsUncut (M.Readable.told lazy.old.medium.now) lazy.old.held }
    ensures turn { (ends : List ℕ) → slice_index ends k ≡ until → OnOk result (GoesOnTold (M.Readable.told lazy.old.medium.now) (λ p. turn ends p k) lazy.old.held order.old.members lazy.new.held order.new.members) }
    ensures unread { IfErr result (IsUnread (file_state M.Readable lazy.old.medium.now) (file_state M.Readable lazy.new.medium.now)) }
    ensures shape { lazy.new.held.machine.shape ≡ lazy.old.held.machine.shape }
    ensures clock { lazy.new.held.machine.clock ≤ lazy.old.held.machine.clock + 1 }
    ensures steps { (most : ℕ) → ((j : ℕ) → steps_of lazy.old.held.machine j ≤ most) → (j : ℕ) → steps_of lazy.new.held.machine j ≤ most + 1 }
    ensures count { length order.new.members ≤ length order.old.members + 1 }
    ensures room { order.new.room ≡ order.old.room }
    ensures uncut { IsUncut (M.Readable.told lazy.new.medium.now) lazy.new.held }
    ensures same_medium { lazy.new.medium.ghost_name ≡ lazy.old.medium.ghost_name }
    ensures leaves { Leaves (file_state M.Readable lazy.old.medium.now) (file_state M.Readable lazy.new.medium.now) }
{
    if phase_has_ended(lazy.vcpu(k), until) {
        return Ok(());
    }
    match lazy.step(k) {
        LazyStep::Event => {
            order.push(k as u8);
            Ok(())
        }
        LazyStep::Halted => Ok(()),
        LazyStep::Truncated { at } => Err(page_fault(PageFault::Truncated { at })),
        LazyStep::ReadFault => Err(page_fault(PageFault::ReadFault)),
    }
}

/// The fault of a page that isn't read.
pub(crate) fn page_fault(fault: PageFault) -> Fault
    ensures { result ≡ page_fault_of fault }
{
    match fault {
        PageFault::Truncated { at } => Fault::FileRefused(Refusal::Truncated { at }),
        PageFault::ReadFault => Fault::FileFault,
    }
}
