ghost use Rattle.std.specs.Prelude.{◌≡◌, ◌≤◌, [], IfErr, IfOk, length, not, true, vec_capacity};
ghost use Rattle.ram_block.specs.declared.limits.TheConstants.{MAX_PHASE};
ghost use Rattle.flat_machine.specs.Machine.{Rest};
ghost use Rattle.page_cell.specs.Plant.{pages_of};
ghost use Rattle.plain_bus.specs.Cells.{is_writable};
ghost use Rattle.bus_rule.specs.Kept.{IsStart, cells_of};
ghost use Rattle.bus_rule.specs.Plays.{first_pass, idle_pass};
ghost use Rattle.bus_rule.specs.Views.{Saving};
ghost use Rattle.page_bus.specs.Closing.{AreAllOf};
ghost use Rattle.page_bus.specs.Moves.{IsBareOf};
ghost use Rattle.page_bus.specs.Opening.{ArePassesFrom, IsOpened, book_from};
ghost use Rattle.page_bus.specs.Passes.{IsBus, IsSaverPass};
ghost use Rattle.page_bus.specs.Plant.{IsAtStart, StandsFor, end_state};
ghost use Rattle.page_bus.specs.Room.{AreTracedFrom, IsKeptRoom, IsRoomFor};

use crate::bare_machine::{BareMachine, into_cells, out_of_cells};
use crate::room::{KeptRoom, Room, room_for};
use crate::traced_vcpu::TracedVcpu;
use crate::{Bus, SaverPass, VcpuPass};
use bus_rule::{About, PassSeat};
use flat_machine::Machine;
use page_cell::Phase;
use ram_block::NoMemory;
use std::alloc::Global;
use std::snapshot::Snapshot;

impl Bus {
    /// A bus over the machine, for a phase of so many instructions, with every page protected or none; and its passes:
    /// pass k of the list is that of vCPU k.
    pub fn start(
        alloc: Global,
        machine: Machine,
        run: u32,
        protect: bool,
    ) -> Result<(Bus, Vec<VcpuPass>, SaverPass), (Machine, NoMemory)>
        requires rest { Rest machine }
        requires most { run ≤ MAX_PHASE }
        ensures opened { IfOk result (λ made. IsOpened machine run protect made.0 made.1.items made.2) }
        ensures all { IfOk result (λ made. AreAllOf made.0 made.1.items made.2) }
        ensures stands { IfOk result (λ made. StandsFor made.2 (pages_of machine)) }
        ensures plant { IfOk result (λ made. protect ≡ true → IsAtStart machine (end_state made.0 made.2)) }
        ensures limits { IfOk result (λ made. IsBus made.0 × IsSaverPass made.2) }
        ensures no_memory { IfErr result (λ e. e.0 ≡ machine) }
    {
        match room_for(alloc, &machine, run) {
            Ok(room) => opened(alloc, machine, room, run, protect),
            Err(no_memory) => Err((machine, no_memory)),
        }
    }
}

// The bus and its passes, with all the memory that they need but that of the table.
fn opened(
    alloc: Global,
    machine: Machine,
    room: Room,
    run: u32,
    protect: bool,
) -> Result<(Bus, Vec<VcpuPass>, SaverPass), (Machine, NoMemory)>
    requires rest { Rest machine }
    requires most { run ≤ MAX_PHASE }
    requires room { IsRoomFor machine run room }
    ensures opened { IfOk result (λ made. IsOpened machine run protect made.0 made.1.items made.2) }
    ensures limits { IfOk result (λ made. IsBus made.0 × IsSaverPass made.2) }
    ensures no_memory { IfErr result (λ e. e.0 ≡ machine) }
{
    let about = About {
        instant: Snapshot::of(&machine),
        run,
        protect,
    };
    let Room {
        words,
        mut cells,
        faults,
        kept,
    } = room;
    let bare = into_cells(machine, &mut cells, faults, phase_at_start(protect));
    match bus_rule::Bus::new(alloc, &words, cells, &about) {
        Ok((rule, seat)) => Ok(over(rule, seat, bare, kept)),
        Err(cells) => Err((out_of_cells(bare, cells), NoMemory)),
    }
}

// In which phase the pages start.
fn phase_at_start(protect: bool) -> Phase
    ensures { is_writable result ≡ not protect }
{
    if protect {
        Phase::Protected
    } else {
        Phase::Writable
    }
}

// The bus over its table, with a pass for each vCPU.
fn over(
    rule: bus_rule::Bus,
    seat: PassSeat,
    bare: BareMachine,
    kept: KeptRoom,
) -> (Bus, Vec<VcpuPass>, SaverPass)
    requires table { seat.table_id ≡ rule.table.shared.table_id }
    requires start { IsStart rule.table.shared.key.instant.value rule.table.shared.key.run }
    requires first { seat.me ≡ (first_pass rule.table.shared.key.instant.value rule.table.shared.key.run rule.table.shared.key.protect, []) }
    requires bare { IsBareOf rule.table.shared.key.instant.value bare }
    requires kept { IsKeptRoom rule.table.shared.key.instant.value rule.table.shared.key.run kept }
    ensures opened { IsOpened rule.table.shared.key.instant.value rule.table.shared.key.run rule.table.shared.key.protect result.0 result.1.items result.2 }
    ensures limits { IsBus result.0 × IsSaverPass result.2 }
{
    let KeptRoom {
        cells,
        mut traced,
        mut passes,
        order,
    } = kept;
    let mut seat = seat;
    split_all(&rule, &mut seat, &mut traced, &mut passes);
    let BareMachine {
        shape,
        vcpus,
        clock,
        ram,
    } = bare;
    let saver = SaverPass {
        seat,
        shape,
        busy: 0,
        picks: 0,
        last: None,
    };
    let bus = Bus {
        rule,
        shape,
        clock,
        vcpus,
        ram,
        cells,
        traced,
        order,
    };
    (bus, passes, saver)
}

// Splits the pass of each vCPU off the saver's.
fn split_all(
    rule: &bus_rule::Bus,
    seat: &mut PassSeat,
    traced: &mut Vec<TracedVcpu>,
    passes: &mut Vec<VcpuPass>,
)
    requires table { seat.old.table_id ≡ rule.now.table.shared.table_id }
    requires first { seat.old.me ≡ (first_pass rule.now.table.shared.key.instant.value rule.now.table.shared.key.run rule.now.table.shared.key.protect, []) }
    requires traced { AreTracedFrom rule.now.table.shared.key.instant.value rule.now.table.shared.key.run traced.old.items }
    requires count { length traced.old.items ≡ length rule.now.table.shared.key.instant.value.vcpus }
    requires empty { passes.old.items ≡ [] }
    requires room { length traced.old.items ≤ vec_capacity passes.old }
    ensures table { seat.new.table_id ≡ seat.old.table_id }
    ensures saver { seat.new.me ≡ (idle_pass (Saving (book_from rule.now.table.shared.key.instant.value rule.now.table.shared.key.run rule.now.table.shared.key.protect (length traced.old.items))), []) }
    ensures passes { ArePassesFrom seat.old.table_id rule.now.table.shared.key.instant.value rule.now.table.shared.key.run rule.now.table.shared.key.protect (length traced.old.items) passes.new.items }
    ensures emptied { traced.new.items ≡ [] }
    ensures kept { length traced.old.items ≤ vec_capacity traced.new }
{
    traced.reverse();
    while let Some(traced) = traced.pop() {
        let _limits = traced.pages();
        let seat = rule.split(seat);
        passes.push_reserved(VcpuPass {
            seat,
            traced,
            busy: 0,
        });
    }
}
