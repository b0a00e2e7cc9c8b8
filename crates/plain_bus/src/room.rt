ghost use Rattle.std.specs.Prelude.{◌≡◌, ◌≤◌, ◌^◌, IfOk};
ghost use Rattle.ram_block.specs.declared.limits.TheConstants.{MAX_PHASE};
ghost use Rattle.flat_machine.specs.Machine.{Rest};
ghost use Rattle.flat_machine.specs.Run.{ends_of};
ghost use Rattle.plain_bus.specs.Room.{IsRoomFor};

use flat_machine::{Machine, Order};
use page_cell::Cell;
use ram_block::NoMemory;
use std::alloc::{AllocError, Global};
use wp_fault::FaultQueue;

/// All the memory that a bus needs.
#[derive(Drop)]
pub(crate) struct Room {
    pub(crate) cells: Vec<Cell>,
    pub(crate) faults: FaultQueue,
    pub(crate) ends: Vec<u64>,
    pub(crate) order: Order,
    pub(crate) picked: Vec<bool>,
}

/// The memory for the machine and a phase of so many instructions.
pub(crate) fn room_for(alloc: Global, machine: &Machine, run: u32) -> Result<Room, NoMemory>
    requires rest { Rest machine.now }
    requires most { run ≤ MAX_PHASE }
    ensures { IfOk result (λ r. IsRoomFor machine.now run r) }
{
    let shape = machine.shape();
    let pages = shape.total_pages();
    Ok(Room {
        cells: Vec::with_capacity(alloc, pages as usize)?,
        faults: FaultQueue::new(alloc, pages)?,
        ends: phase_ends(alloc, machine, run)?,
        order: Order::with_room(alloc, 2 * run as usize * shape.vcpus() as usize)?,
        picked: vec![in alloc; false; pages as usize]?,
    })
}

// The counts of steps at which the phases end, by vCPU.
#[tactic(auto, using(crate::proofs::Ends::ends_steps))]
fn phase_ends(alloc: Global, machine: &Machine, run: u32) -> Result<Vec<u64>, AllocError>
    requires rest { Rest machine.now }
    requires most { run ≤ MAX_PHASE }
    ensures { IfOk result (λ ends. ends.items ≡ ends_of machine.now run) }
{
    let vcpus = machine.shape().vcpus();
    let mut ends = Vec::with_capacity(alloc, vcpus as usize)?;
    for k in 0..vcpus {
        ends.push(machine.vcpu(k).steps() + u64::from(run))?;
    }
    Ok(ends)
}
