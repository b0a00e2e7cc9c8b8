// A vCPU's turn, over its seat and its vCPU.
ghost use Rattle.std.specs.Prelude.{◌≡◌, ◌≢◌, ◌<◌, ℕ, List, false, true, Some};
ghost use Rattle.ram_block.specs.Shape.{total_pages_of};
ghost use Rattle.ram_block.specs.declared.cause.Cause.{Cause};
ghost use Rattle.rv64i_step.specs.Request.{written_page};
ghost use Rattle.rv64i_step.specs.declared.request.Request.{Request};
ghost use Rattle.rv64i_step.specs.declared.request.Request.TheVariants.{NoFetch};
ghost use Rattle.page_cell.specs.Cell.{stops_at};
ghost use Rattle.page_cell.specs.declared.cell.Cell.TheVariants as cells;
ghost use Rattle.page_cell.specs.declared.phase.Phase.TheVariants.{Protected};
ghost use Rattle.plain_bus.specs.declared.answer.StepAnswer.TheVariants.{Idle};
ghost use Rattle.bus_rule.specs.Plays.{IsKind};
ghost use Rattle.bus_rule.specs.Tells.{top_of};
ghost use Rattle.bus_rule.specs.Views.{request_in};
ghost use Rattle.page_bus.specs.Passes.{task_of};
ghost use Rattle.page_bus.specs.Steps.{LeavesTry, MakesEvent, TurnsTo};
ghost use Rattle.page_bus.specs.Turns.{HoldsOne, IsAsking, IsTied, IsTouched, IsWorking, emptied};

use crate::traced_vcpu::{TracedVcpu, cell_touched};
use bus_rule::{Bus, PassSeat};
use plain_bus::StepAnswer;
use rv64i_step::Request;

/// The turn of a vCPU.
#[inline(always)]
pub(crate) fn turn(bus: &Bus, seat: &mut PassSeat, traced: &mut TracedVcpu) -> StepAnswer
    requires table { seat.old.table_id ≡ bus.now.table.shared.table_id }
    requires tied { IsTied seat.old.table_id seat.old.me traced.old }
    ensures table { seat.new.table_id ≡ seat.old.table_id }
    ensures leaves { LeavesTry seat.old.me.0 result seat.new.me.0 }
    ensures tied { IsTied seat.new.table_id seat.new.me traced.new }
{
    if traced.has_ended() {
        return StepAnswer::Idle;
    }
    let request = traced.request();
    match cell_touched(&request, traced.pages()) {
        Some(cell) => turn_with(bus, seat, traced, &request, cell),
        None => {
            event_alone(bus, seat, traced);
            StepAnswer::Done
        }
    }
}

// The turn of a vCPU whose next event touches this cell.
#[inline(always)]
fn turn_with(
    bus: &Bus,
    seat: &mut PassSeat,
    traced: &mut TracedVcpu,
    request: &Request,
    cell: u32,
) -> StepAnswer
    requires table { seat.old.table_id ≡ bus.now.table.shared.table_id }
    requires tied { IsTied seat.old.table_id seat.old.me traced.old }
    requires asks { IsAsking traced.old seat.old.me.0 request.now }
    requires touches { IsTouched traced.old.shape request.now cell }
    ensures table { seat.new.table_id ≡ seat.old.table_id }
    ensures turns { TurnsTo seat.old.me.0 result seat.new.me.0 }
    ensures not_idle { result ≢ Idle }
    ensures tied { IsTied seat.new.table_id seat.new.me traced.new }
{
    if bus.take(seat, cell, traced.number()) != 0 {
        return StepAnswer::Busy(cell);
    }
    if bus.stops(seat, cell, request) {
        return stop(bus, seat, traced, cell);
    }
    event(bus, seat, traced, request, cell);
    StepAnswer::Done
}

// The event of a vCPU with the cell that it took, which doesn't stop it.
#[inline(always)]
fn event(bus: &Bus, seat: &mut PassSeat, traced: &mut TracedVcpu, request: &Request, cell: u32)
    requires table { seat.old.table_id ≡ bus.now.table.shared.table_id }
    requires working { IsWorking seat.old.table_id seat.old.me.0 traced.old }
    requires holds { HoldsOne seat.old.me cell }
    requires asks { IsAsking traced.old seat.old.me.0 request.now }
    requires touches { IsTouched traced.old.shape request.now cell }
    requires kind { IsKind (total_pages_of traced.old.shape) cell (top_of seat.old.me.1) }
    requires free { stops_at request.now (top_of seat.old.me.1) ≡ false }
    ensures table { seat.new.table_id ≡ seat.old.table_id }
    ensures event { MakesEvent (emptied seat.old.me.0) seat.new.me.0 }
    ensures tied { IsTied seat.new.table_id seat.new.me traced.new }
{
    let clock = bus.draw(seat);
    let value = bus.apply(seat, cell, request, clock);
    bus.give(seat, cell);
    traced.note_event(request, value, clock);
}

// The event of a vCPU that has nothing to fetch.
#[inline(always)]
fn event_alone(bus: &Bus, seat: &mut PassSeat, traced: &mut TracedVcpu)
    requires table { seat.old.table_id ≡ bus.now.table.shared.table_id }
    requires tied { IsTied seat.old.table_id seat.old.me traced.old }
    requires asks { (cause : Cause) × IsAsking traced.old seat.old.me.0 (NoFetch cause) }
    ensures table { seat.new.table_id ≡ seat.old.table_id }
    ensures event { MakesEvent seat.old.me.0 seat.new.me.0 }
    ensures tied { IsTied seat.new.table_id seat.new.me traced.new }
{
    let clock = bus.draw_alone(seat);
    traced.note_no_fetch(clock);
}

// The stop of a vCPU at the page that it took, which is protected: the page is queued, unless the queue is held.
fn stop(bus: &Bus, seat: &mut PassSeat, traced: &mut TracedVcpu, page: u32) -> StepAnswer
    requires table { seat.old.table_id ≡ bus.now.table.shared.table_id }
    requires working { IsWorking seat.old.table_id seat.old.me.0 traced.old }
    requires holds { HoldsOne seat.old.me page }
    requires page { page < total_pages_of traced.old.shape }
    requires protected { (bytes : List ℕ) × (top_of seat.old.me.1 ≡ cells.Page bytes Protected) }
    requires writes { written_page (request_in (task_of seat.old.me.0)) ≡ Some page }
    ensures table { seat.new.table_id ≡ seat.old.table_id }
    ensures turns { TurnsTo (emptied seat.old.me.0) result seat.new.me.0 }
    ensures not_idle { result ≢ Idle }
    ensures tied { IsTied seat.new.table_id seat.new.me traced.new }
{
    let queue = traced.pages() + 2;
    if bus.take(seat, queue, traced.number()) != 0 {
        bus.give(seat, page);
        return StepAnswer::Busy(queue);
    }
    bus.push_fault(seat, queue, page);
    bus.mark_stopped(seat, queue);
    bus.give(seat, queue);
    bus.give(seat, page);
    traced.note_stop();
    StepAnswer::Stopped(page)
}
