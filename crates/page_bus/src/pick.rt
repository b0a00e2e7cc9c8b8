// A pick of the saver's, over its seat.
ghost use Rattle.std.specs.Prelude.{◌≡◌, ◌+◌};
ghost use Rattle.page_bus.specs.Saves.{PicksTo};
ghost use Rattle.page_bus.specs.Turns.{IsIdleSaver};

use bus_rule::{Bus, PassSeat};
use page_cell::Pick;
use ram_block::Shape;

/// Takes the front of the queue.
pub(crate) fn pick_from(bus: &Bus, seat: &mut PassSeat, shape: &Shape) -> Pick
    requires table { seat.old.table_id ≡ bus.now.table.shared.table_id }
    requires idle { IsIdleSaver seat.old.table_id seat.old.me shape.now }
    ensures table { seat.new.table_id ≡ seat.old.table_id }
    ensures picks { PicksTo seat.old.me.0 result seat.new.me.0 }
    ensures idle { IsIdleSaver seat.new.table_id seat.new.me shape.now }
{
    let queue = shape.total_pages() + 2;
    if bus.take(seat, queue, saver_number(shape)) != 0 {
        return Pick::Busy;
    }
    let front = bus.pop_fault(seat, queue);
    bus.mark_picked(seat, queue);
    bus.give(seat, queue);
    match front {
        Some(page) => Pick::Fault(page),
        None => Pick::Empty,
    }
}

/// The number that the saver's pass writes into the words of the cells that it takes.
pub(crate) fn saver_number(shape: &Shape) -> u64
    ensures { result ≡ shape.now.vcpus + 1 }
{
    u64::from(shape.vcpus()) + 1
}
