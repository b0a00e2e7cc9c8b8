// A take of the saver's, over its seat.
ghost use Rattle.std.specs.Prelude.{◌≡◌, ◌<◌};
ghost use Rattle.ram_block.specs.Shape.{total_pages_of};
ghost use Rattle.page_cell.specs.Cell.{IsPage};
ghost use Rattle.bus_rule.specs.Plays.{IsBookedCell};
ghost use Rattle.bus_rule.specs.Tells.{top_of};
ghost use Rattle.bus_rule.specs.Views.{Saving};
ghost use Rattle.page_bus.specs.Passes.{book_of};
ghost use Rattle.page_bus.specs.Saves.{TakesTo};
ghost use Rattle.page_bus.specs.Turns.{HoldsOne, IsIdleSaver, emptied};

use crate::pick::saver_number;
use bus_rule::{Bus, PassSeat};
use page_cell::{PageBuf, Taken};
use ram_block::Shape;

/// Copies a protected page out, and then makes it writable.
pub(crate) fn take_from(
    bus: &Bus,
    seat: &mut PassSeat,
    shape: &Shape,
    page: u32,
    into: &mut PageBuf,
) -> Taken
    requires table { seat.old.table_id ≡ bus.now.table.shared.table_id }
    requires idle { IsIdleSaver seat.old.table_id seat.old.me shape.now }
    requires page { page < total_pages_of shape.now }
    ensures table { seat.new.table_id ≡ seat.old.table_id }
    ensures takes { TakesTo seat.old.me.0 page into.old result into.new seat.new.me.0 }
    ensures idle { IsIdleSaver seat.new.table_id seat.new.me shape.now }
{
    if bus.take(seat, page, saver_number(shape)) != 0 {
        return Taken::Busy;
    }
    let answer = take_held(bus, seat, page, into);
    bus.give(seat, page);
    answer
}

// The same of a page that the seat holds.
fn take_held(bus: &Bus, seat: &mut PassSeat, page: u32, into: &mut PageBuf) -> Taken
    requires table { seat.old.table_id ≡ bus.now.table.shared.table_id }
    requires cell { page < seat.old.table_id.slots }
    requires role { seat.old.me.0.role ≡ Saving (book_of seat.old.me.0) }
    requires holds { HoldsOne seat.old.me page }
    requires page { IsPage (top_of seat.old.me.1) }
    requires booked { IsBookedCell (book_of seat.old.me.0) page (top_of seat.old.me.1) }
    ensures table { seat.new.table_id ≡ seat.old.table_id }
    ensures takes { TakesTo (emptied seat.old.me.0) page into.old result into.new (emptied seat.new.me.0) }
    ensures role { seat.new.me.0.role ≡ Saving (book_of seat.new.me.0) }
    ensures holds { HoldsOne seat.new.me page }
{
    let answer = bus.copy_out(seat, page, into);
    if let Taken::Copied = answer {
        bus.mark_released(seat, page);
    }
    answer
}
