ghost use Rattle.std.specs.Prelude.{◌≡◌, ◌≤◌, [], IfErr, IfOk, vec_capacity};
ghost use Rattle.std.specs.Mem.Slots.{IsFull, slots_items, slots_len};
ghost use Rattle.bus_rule.specs.Ended.{Ended, HasJoined, IsOpening};
ghost use Rattle.bus_rule.specs.Plays.{first_pass};
ghost use Rattle.bus_rule.specs.Views.{Book};

use crate::bus::{Bus, PassSeat};
use crate::rule::About;
use atomic_table::{Closed, Refused, Table};
use page_cell::Cell;
use std::alloc::Global;

/// A bus from its start to its end.
impl Bus {
    /// A bus of these words and cells, with the saver's pass. Where there is no memory, the cells come back.
    pub fn new(
        alloc: Global,
        words: &[u64],
        cells: Vec<Cell>,
        about: &About,
    ) -> Result<(Bus, PassSeat), Vec<Cell>>
        requires { IsOpening about.now.instant.value about.now.run about.now.protect words.now cells.items }
        ensures key { IfOk result (λ made. made.0.table.shared.key ≡ about.now) }
        ensures table { IfOk result (λ made. made.1.table_id ≡ made.0.table.shared.table_id) }
        ensures first { IfOk result (λ made. made.1.me ≡ (first_pass about.now.instant.value about.now.run about.now.protect, [])) }
        ensures refused { IfErr result (λ back. back.items ≡ cells.items) }
    {
        match Table::new(alloc, words, cells, about) {
            Ok((table, seat)) => Ok((Bus { table }, seat)),
            Err(Refused { slots }) => Err(slots),
        }
    }

    /// Puts the cells of a bus whose passes were all joined into a list that has room for them.
    pub fn close(self, seat: PassSeat, cells: &mut Vec<Cell>)
        requires table { seat.table_id ≡ self.table.shared.table_id }
        requires joined { (b : Book) × HasJoined seat.me.0 b }
        requires empty { cells.old.items ≡ [] }
        requires room { self.table.shared.table_id.slots ≤ vec_capacity cells.old }
        ensures { (b : Book) → HasJoined seat.me.0 b → Ended self.table.shared.key.instant.value self.table.shared.key.run self.table.shared.key.protect b cells.new.items }
    {
        let Bus { table } = self;
        empty_into(table.close_with(seat), cells);
    }
}

// Moves the cells of a closed table into a list.
fn empty_into(closed: Closed<Cell, Global>, cells: &mut Vec<Cell>)
    requires full { IsFull closed.slots }
    requires empty { cells.old.items ≡ [] }
    requires room { slots_len closed.slots ≤ vec_capacity cells.old }
    ensures { cells.new.items ≡ slots_items closed.slots }
{
    let mut closed = closed;
    for i in 0..closed.slot_count() {
        cells.push_reserved(closed.take(i));
    }
    closed.free();
}
