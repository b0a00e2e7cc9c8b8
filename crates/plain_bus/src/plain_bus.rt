ghost use Rattle.std.specs.Prelude.{◌≡◌, ◌<◌, ◌≤◌, ℕ, [], ◌∷◌, ◌++◌, length, IfErr, IfOk, Some, true};
ghost use Rattle.ram_block.specs.declared.limits.TheConstants.{MAX_PHASE};
ghost use Rattle.flat_machine.specs.Machine.{IsMachine, Rest};
ghost use Rattle.flat_machine.specs.Run as runs;
ghost use Rattle.flat_machine.specs.Run.{has_ended, run};
ghost use Rattle.medium.specs.Count.{counted};
ghost use Rattle.wp_fault.specs.Queue.{IsQueue, queued};
ghost use Rattle.page_cell.specs.Core.{core_from};
ghost use Rattle.page_cell.specs.Plant.{pages_of};
ghost use Rattle.plain_bus.specs.Bus.{IsBus, LeavesTry, StandsFor, bus_from, core_of, phase_ended};
ghost use Rattle.plain_bus.specs.Room.{IsRoomFor};

use crate::cell_machine::CellMachine;
use crate::room::{Room, room_for};
use crate::{Closed, StepAnswer};
use flat_machine::{Machine, Order};
use page_cell::{Phase, Pick};
use ram_block::{NoMemory, Shape};
use std::alloc::Global;
use std::marker::Model;
use std::snapshot::Snapshot;
use wp_fault::FaultQueue;

/// The bus of one thread. All its memory is taken at the start.
#[derive(Drop)]
pub struct PlainBus {
    pub(crate) cells: CellMachine,
    pub(crate) faults: FaultQueue,
    // The steps at which each vCPU's phase ends.
    pub(crate) ends: Vec<u64>,
    pub(crate) order: Order,
    pub(crate) blocked: u64,
    pub(crate) picked: Vec<bool>,
    pub(crate) picks: u64,
    pub(crate) last: Option<Pick>,
    // The machine at the start, which clauses alone read.
    pub(crate) instant: Snapshot<Machine>,
    pub(crate) run: u32,
}

impl Model for PlainBus {
    ghost use Rattle.plain_bus.specs.Bus.{BusData};

    ghost Value = { BusData };

    ghost use Rattle.plain_bus.specs.Inside.{IsInside, bus_of};

    ghost view = { bus_of };

    ghost invariant = { IsInside };
}

impl PlainBus {
    /// A bus over the machine, for a phase of so many instructions, with every page protected or none.
    pub fn start(
        alloc: Global,
        machine: Machine,
        run: u32,
        protect: bool,
    ) -> Result<PlainBus, (Machine, NoMemory)>
        requires rest { Rest machine }
        requires most { run ≤ MAX_PHASE }
        ensures bus { IfOk result (λ b. b ≡ bus_from machine run protect) }
        ensures core { IfOk result (λ b. protect ≡ true → core_of b [] ≡ core_from machine) }
        ensures stands { IfOk result (λ b. StandsFor b (pages_of machine)) }
        ensures limits { IfOk result IsBus }
        ensures no_memory { IfErr result (λ e. e.0 ≡ machine) }
    {
        match room_for(alloc, &machine, run) {
            Ok(room) => Ok(PlainBus::over(machine, room, run, protect)),
            Err(no_memory) => Err((machine, no_memory)),
        }
    }

    // The same, with all the memory that it needs.
    fn over(machine: Machine, room: Room, run: u32, protect: bool) -> PlainBus
        requires rest { Rest machine }
        requires most { run ≤ MAX_PHASE }
        requires room { IsRoomFor machine run room }
        ensures bus { result ≡ bus_from machine run protect }
        ensures limits { IsBus result }
    {
        let phase = if protect {
            Phase::Protected
        } else {
            Phase::Writable
        };
        let instant = Snapshot::of(&machine);
        PlainBus {
            cells: CellMachine::of(machine, room.cells, phase),
            faults: room.faults,
            ends: room.ends,
            order: room.order,
            blocked: 0,
            picked: room.picked,
            picks: 0,
            last: None,
            instant,
            run,
        }
    }

    /// The turn of vCPU k: its next event, or a stop at a protected page, which is queued.
    #[inline(always)]
    pub fn try_step(&mut self, k: u32) -> StepAnswer
        requires { k < self.old.machine.shape.vcpus }
        ensures { LeavesTry self.old k result self.new }
    {
        if self.ended(k) {
            return StepAnswer::Idle;
        }
        match self.cells.step(k) {
            None => {
                note_event(&mut self.order, k);
                StepAnswer::Done
            }
            Some(page) => {
                note_stop(&mut self.faults, &mut self.blocked, page);
                StepAnswer::Stopped(page)
            }
        }
    }

    /// Whether the phase of vCPU k has ended.
    #[inline(always)]
    pub fn ended(&self, k: u32) -> bool
        requires { k < self.now.machine.shape.vcpus }
        ensures here { result ≡ phase_ended self.now k }
        ensures ended { result ≡ has_ended self.now.instant self.now.run self.now.machine k }
        ensures limits { IsBus self.now }
    {
        self.cells.has_ended(k, self.ends[k as usize])
    }

    /// How often a vCPU was stopped, or the greatest u64 where it was more often.
    pub fn blocked(&self) -> u64
        ensures value { result ≡ self.now.blocked }
        ensures limits { IsBus self.now }
    {
        self.blocked
    }

    pub fn shape(&self) -> Shape
        ensures value { result ≡ self.now.machine.shape }
        ensures limits { IsBus self.now }
    {
        self.cells.shape()
    }

    /// The machine and the order of the events since the start.
    pub fn close(self) -> Closed
        ensures machine { result.machine ≡ self.machine }
        ensures order { result.order ≡ self.order }
        ensures run { run self.instant result.order.members ≡ Some result.machine }
        ensures phase { ((k : ℕ) → k < self.instant.shape.vcpus → has_ended self.instant self.run result.machine k ≡ true) → runs.Phase self.instant self.run result.order.members }
        ensures limits { IsMachine result.machine }
    {
        let PlainBus { cells, order, .. } = self;
        Closed {
            machine: cells.into_machine(),
            order,
        }
    }
}

// A vCPU was stopped on a page, which is queued.
#[inline(always)]
fn note_stop(faults: &mut FaultQueue, blocked: &mut u64, page: u32)
    requires { page < faults.old.pages }
    ensures queue { faults.new ≡ record { pages = faults.old.pages; list = queued faults.old.list page } }
    ensures kept { IsQueue faults.new }
    ensures blocked { blocked.new ≡ counted blocked.old }
{
    faults.push(page);
    *blocked = blocked.saturating_add(1);
}

// An event of vCPU k was made, the last so far.
#[inline(always)]
fn note_event(order: &mut Order, k: u32)
    requires vcpu { k < 8 }
    requires room { length order.old.members < order.old.room }
    ensures { order.new ≡ record { members = order.old.members ++ k ∷ []; room = order.old.room } }
{
    order.push(k as u8);
}
