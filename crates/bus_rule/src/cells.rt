ghost use Rattle.std.specs.Prelude.{◌≡◌, ◌<◌, IfSome, false, slice_get};
ghost use Rattle.flat_machine.specs.Fits.{IsWordIfFetched};
ghost use Rattle.page_cell.specs.Cell.{FitsCell, IsPage, buffer_after, bytes_in, cell_after, cell_gives, phase_in, stops_at, taken_in};
ghost use Rattle.page_cell.specs.declared.cell.Cell.TheVariants as cells;
ghost use Rattle.page_cell.specs.declared.phase.Phase.TheVariants.{Writable};
ghost use Rattle.bus_rule.specs.Tells.{HasOut, IsFaults, queue_in, top_of, with_out, with_queued, without_front};

use crate::bus::{Bus, PassSeat};
use page_cell::{Cell, PageBuf, Taken};
use rv64i_step::Request;

/// What a pass does with the cell that it took last, which is plain memory to it.
impl Bus {
    /// Whether the cell stops an event.
    pub fn stops(&self, seat: &mut PassSeat, cell: u32, request: &Request) -> bool
        requires table { seat.old.table_id ≡ self.now.table.shared.table_id }
        requires out { HasOut cell seat.old.me }
        ensures table { seat.new.table_id ≡ seat.old.table_id }
        ensures stops { result ≡ stops_at request.now (top_of seat.old.me.1) }
        ensures kept { seat.new.me ≡ seat.old.me }
    {
        let held = seat.slot_mut(&self.table.shared, cell as usize);
        held.stops(request)
    }

    /// The cell's part of an event, at a time: it answers what the cell gives.
    pub fn apply(&self, seat: &mut PassSeat, cell: u32, request: &Request, time: u64) -> u64
        requires table { seat.old.table_id ≡ self.now.table.shared.table_id }
        requires out { HasOut cell seat.old.me }
        requires fits { FitsCell request.now (top_of seat.old.me.1) }
        requires free { stops_at request.now (top_of seat.old.me.1) ≡ false }
        ensures table { seat.new.table_id ≡ seat.old.table_id }
        ensures gives { result ≡ cell_gives request.now (top_of seat.old.me.1) time }
        ensures after { seat.new.me ≡ with_out cell seat.old.me (cell_after request.now (top_of seat.old.me.1)) }
        ensures word { IsWordIfFetched request.now result }
    {
        let held = seat.slot_mut(&self.table.shared, cell as usize);
        held.apply(request, time)
    }

    /// The page's part of a take: one that is protected is copied out and made writable, one that is writable stays, and
    /// so does the buffer.
    pub fn copy_out(&self, seat: &mut PassSeat, page: u32, into: &mut PageBuf) -> Taken
        requires table { seat.old.table_id ≡ self.now.table.shared.table_id }
        requires out { HasOut page seat.old.me }
        requires page { IsPage (top_of seat.old.me.1) }
        ensures table { seat.new.table_id ≡ seat.old.table_id }
        ensures taken { result ≡ taken_in (phase_in (top_of seat.old.me.1)) }
        ensures buffer { into.new ≡ buffer_after (phase_in (top_of seat.old.me.1)) (bytes_in (top_of seat.old.me.1)) into.old }
        ensures after { seat.new.me ≡ with_out page seat.old.me (cells.Page (bytes_in (top_of seat.old.me.1)) Writable) }
    {
        let held = seat.slot_mut(&self.table.shared, page as usize);
        held.take(into)
    }

    /// Puts a page last into the queue, unless it is queued.
    pub fn push_fault(&self, seat: &mut PassSeat, queue: u32, page: u32)
        requires table { seat.old.table_id ≡ self.now.table.shared.table_id }
        requires out { HasOut queue seat.old.me }
        requires queue { IsFaults (top_of seat.old.me.1) }
        requires page { page < (queue_in (top_of seat.old.me.1)).pages }
        ensures table { seat.new.table_id ≡ seat.old.table_id }
        ensures after { seat.new.me ≡ with_out queue seat.old.me (with_queued (queue_in (top_of seat.old.me.1)) page) }
    {
        let held = seat.slot_mut(&self.table.shared, queue as usize);
        push_into(held, page);
    }

    /// Takes the front out of the queue.
    pub fn pop_fault(&self, seat: &mut PassSeat, queue: u32) -> Option<u32>
        requires table { seat.old.table_id ≡ self.now.table.shared.table_id }
        requires out { HasOut queue seat.old.me }
        requires queue { IsFaults (top_of seat.old.me.1) }
        ensures table { seat.new.table_id ≡ seat.old.table_id }
        ensures front { result ≡ slice_get (queue_in (top_of seat.old.me.1)).list 0 }
        ensures below { IfSome result (λ p. p < (queue_in (top_of seat.old.me.1)).pages) }
        ensures after { seat.new.me ≡ with_out queue seat.old.me (without_front (queue_in (top_of seat.old.me.1))) }
    {
        let held = seat.slot_mut(&self.table.shared, queue as usize);
        pop_from(held)
    }
}

// A page put last into the queue that a cell is.
fn push_into(cell: &mut Cell, page: u32)
    requires queue { IsFaults cell.old }
    requires page { page < (queue_in cell.old).pages }
    ensures { cell.new ≡ with_queued (queue_in cell.old) page }
{
    match cell {
        Cell::Faults(queue) => {
            queue.push(page);
        }
        _ => unreachable!(),
    }
}

// The front of the queue that a cell is.
fn pop_from(cell: &mut Cell) -> Option<u32>
    requires queue { IsFaults cell.old }
    ensures front { result ≡ slice_get (queue_in cell.old).list 0 }
    ensures below { IfSome result (λ p. p < (queue_in cell.old).pages) }
    ensures after { cell.new ≡ without_front (queue_in cell.old) }
{
    match cell {
        Cell::Faults(queue) => queue.pop(),
        _ => unreachable!(),
    }
}
