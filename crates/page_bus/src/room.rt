ghost use Rattle.std.specs.Prelude.{◌≡◌, ◌≤◌, IfOk, length};
ghost use Rattle.ram_block.specs.declared.limits.TheConstants.{MAX_PHASE};
ghost use Rattle.flat_machine.specs.Machine.{Rest};
ghost use Rattle.page_bus.specs.Room.{AreTracedFrom, IsKeptRoom, IsRoomFor};

use crate::VcpuPass;
use crate::traced_vcpu::TracedVcpu;
use flat_machine::{Machine, Order};
use page_cell::Cell;
use ram_block::NoMemory;
use std::alloc::{AllocError, Global};
use wp_fault::FaultQueue;

/// The memory that a bus and its passes keep.
#[derive(Drop)]
pub(crate) struct KeptRoom {
    // For the cells, when they come back.
    pub(crate) cells: Vec<Cell>,
    pub(crate) traced: Vec<TracedVcpu>,
    pub(crate) passes: Vec<VcpuPass>,
    pub(crate) order: Order,
}

/// All the memory that a bus and its passes need, beside its table.
#[derive(Drop)]
pub(crate) struct Room {
    // The clock word, and a free lock word for each cell.
    pub(crate) words: Vec<u64>,
    pub(crate) cells: Vec<Cell>,
    pub(crate) faults: FaultQueue,
    pub(crate) kept: KeptRoom,
}

/// The memory for the machine and a phase of so many instructions.
pub(crate) fn room_for(alloc: Global, machine: &Machine, run: u32) -> Result<Room, NoMemory>
    requires rest { Rest machine.now }
    requires most { run ≤ MAX_PHASE }
    ensures { IfOk result (λ r. IsRoomFor machine.now run r) }
{
    let shape = machine.shape();
    let pages = shape.total_pages();
    let cells = pages as usize + 3;
    let mut words = vec![in alloc; 0; cells + 1]?;
    words[0] = machine.clock();
    Ok(Room {
        words,
        cells: Vec::with_capacity(alloc, cells)?,
        faults: FaultQueue::new(alloc, pages)?,
        kept: kept_room(alloc, machine, run)?,
    })
}

// The same, for what a bus and its passes keep.
fn kept_room(alloc: Global, machine: &Machine, run: u32) -> Result<KeptRoom, NoMemory>
    requires rest { Rest machine.now }
    requires most { run ≤ MAX_PHASE }
    ensures { IfOk result (λ r. IsKeptRoom machine.now run r) }
{
    let shape = machine.shape();
    let vcpus = shape.vcpus() as usize;
    Ok(KeptRoom {
        cells: Vec::with_capacity(alloc, shape.total_pages() as usize + 3)?,
        traced: traced_vcpus(alloc, machine, run)?,
        passes: Vec::with_capacity(alloc, vcpus)?,
        order: Order::with_room(alloc, 2 * run as usize * vcpus)?,
    })
}

// The vCPUs before their first events, each with room for its numbers.
fn traced_vcpus(alloc: Global, machine: &Machine, run: u32) -> Result<Vec<TracedVcpu>, AllocError>
    requires rest { Rest machine.now }
    requires most { run ≤ MAX_PHASE }
    ensures traced { IfOk result (λ traced. AreTracedFrom machine.now run traced.items) }
    ensures count { IfOk result (λ traced. length traced.items ≡ length machine.now.vcpus) }
{
    let vcpus = machine.shape().vcpus();
    let mut traced = Vec::with_capacity(alloc, vcpus as usize)?;
    for k in 0..vcpus {
        traced.push(TracedVcpu::first(alloc, machine, k, run)?)?;
    }
    Ok(traced)
}
