ghost use Rattle.std.specs.Prelude.{◌≡◌, ◌+◌, ◌<◌, [], List, ℕ};
ghost use Rattle.wp_fault.specs.Queue.{QueueData};
ghost use Rattle.page_cell.specs.declared.cell.Cell.{Cell};
ghost use Rattle.bus_rule.specs.Kept.{cells_of};
ghost use Rattle.bus_rule.specs.Plays.{CanGive, CanJoin, CanPick, CanRelease, CanSplit, CanStop, CanStopShort, CanTake, CanTouch, after_join, after_split, next_pass};
ghost use Rattle.bus_rule.specs.Tells.{DrawsAlone, DrawsWithCell, GivesBack, MarksAs, TakesOrFinds, pick_by, release_by, stop_by};
ghost use Rattle.bus_rule.specs.Views.{Book, Task, number_of};

use crate::plays::{Draw, DrawAlone, Give, Part, Pick, Release, Stop, Take};
use crate::{About, BusRule, PassView};
use atomic_table::{Seat, Table};
use page_cell::Cell;
use std::alloc::Global;

/// What a thread takes its steps with: a view, and the cells that are out with it. It has no bytes.
pub type PassSeat = Seat<Cell, PassView>;

/// The table of a bus: the clock word, and a lock word for each cell.
#[derive(Drop)]
pub struct Bus {
    pub table: Table<Cell, PassView, About, BusRule, Global>,
    ghost cells: { table.shared.table_id.slots ≡ cells_of table.shared.key.instant.value.shape },
    ghost words: { table.shared.table_id.words ≡ table.shared.table_id.slots + 1 },
}

impl Bus {
    /// Takes a cell that is at home, for the pass of this number, and answers 0; or answers the number of the pass that
    /// holds it.
    pub fn take(&self, seat: &mut PassSeat, cell: u32, number: u64) -> u64
        requires table { seat.old.table_id ≡ self.now.table.shared.table_id }
        requires cell { cell < self.now.table.shared.table_id.slots }
        requires number { number ≡ number_of seat.old.me.0.role }
        requires can { CanTake seat.old.me.0 cell }
        ensures table { seat.new.table_id ≡ seat.old.table_id }
        ensures told { TakesOrFinds cell number seat.old.me result seat.new.me }
    {
        self.table
            .shared
            .compare_exchange::<Take>(seat, cell as usize + 1, 0, number)
    }

    /// Gives the cell back that was taken last.
    pub fn give(&self, seat: &mut PassSeat, cell: u32)
        requires table { seat.old.table_id ≡ self.now.table.shared.table_id }
        requires cell { cell < self.now.table.shared.table_id.slots }
        requires can { CanGive seat.old.me cell }
        ensures table { seat.new.table_id ≡ seat.old.table_id }
        ensures told { GivesBack seat.old.me seat.new.me }
    {
        self.table.shared.store::<Give>(seat, cell as usize + 1, 0);
    }

    /// Draws the number of an event, with the cell that it touches; it answers the clock before the event.
    pub fn draw(&self, seat: &mut PassSeat) -> u64
        requires table { seat.old.table_id ≡ self.now.table.shared.table_id }
        requires can { (t : Task) × (c : ℕ) × (x : Cell) × CanTouch seat.old.me.0 t c x }
        ensures table { seat.new.table_id ≡ seat.old.table_id }
        ensures told { DrawsWithCell seat.old.me result seat.new.me }
    {
        self.table.shared.fetch_add::<Draw>(seat, 0, 1)
    }

    /// Draws the number of an event that touches no cell: there is nothing to fetch.
    pub fn draw_alone(&self, seat: &mut PassSeat) -> u64
        requires table { seat.old.table_id ≡ self.now.table.shared.table_id }
        requires can { (t : Task) × CanStopShort seat.old.me.0 t }
        ensures table { seat.new.table_id ≡ seat.old.table_id }
        ensures told { DrawsAlone seat.old.me result seat.new.me }
    {
        self.table.shared.fetch_add::<DrawAlone>(seat, 0, 1)
    }

    /// Marks a protected page, which the saver took last, as writable.
    pub fn mark_released(&self, seat: &mut PassSeat, page: u32)
        requires table { seat.old.table_id ≡ self.now.table.shared.table_id }
        requires cell { page < self.now.table.shared.table_id.slots }
        requires can { (b : Book) × (bytes : List ℕ) × CanRelease seat.old.me.0 b page bytes }
        ensures table { seat.new.table_id ≡ seat.old.table_id }
        ensures told { MarksAs release_by seat.old.me seat.new.me }
    {
        self.table.shared.load::<Release>(seat, page as usize + 1);
    }

    /// Marks that a vCPU was stopped, on the page under the queue, which the pass took last.
    pub fn mark_stopped(&self, seat: &mut PassSeat, queue: u32)
        requires table { seat.old.table_id ≡ self.now.table.shared.table_id }
        requires cell { queue < self.now.table.shared.table_id.slots }
        requires can { (t : Task) × (page : ℕ) × (bytes : List ℕ) × (q : QueueData) × CanStop seat.old.me.0 t queue page bytes q }
        ensures table { seat.new.table_id ≡ seat.old.table_id }
        ensures told { MarksAs stop_by seat.old.me seat.new.me }
    {
        self.table.shared.load::<Stop>(seat, queue as usize + 1);
    }

    /// Marks that the saver, which took the queue last, picked its front, or found it empty.
    pub fn mark_picked(&self, seat: &mut PassSeat, queue: u32)
        requires table { seat.old.table_id ≡ self.now.table.shared.table_id }
        requires cell { queue < self.now.table.shared.table_id.slots }
        requires can { (b : Book) × (q : QueueData) × CanPick seat.old.me.0 b queue q }
        ensures table { seat.new.table_id ≡ seat.old.table_id }
        ensures told { MarksAs pick_by seat.old.me seat.new.me }
    {
        self.table.shared.load::<Pick>(seat, queue as usize + 1);
    }

    /// Splits the pass of the next vCPU off the saver's.
    pub fn split(&self, seat: &mut PassSeat) -> PassSeat
        requires table { seat.old.table_id ≡ self.now.table.shared.table_id }
        requires can { (b : Book) × CanSplit seat.old.me.0 b }
        ensures tables { (seat.new.table_id ≡ seat.old.table_id) × (result.table_id ≡ seat.old.table_id) }
        ensures left { seat.new.me ≡ (after_split seat.old.me.0, seat.old.me.1) }
        ensures split { result.me ≡ (next_pass seat.old.me.0, []) }
    {
        self.table.shared.split_seat::<Part>(seat)
    }

    /// Joins a vCPU's pass to the saver's.
    pub fn join(&self, seat: &mut PassSeat, other: PassSeat)
        requires table { seat.old.table_id ≡ self.now.table.shared.table_id }
        requires other_table { other.table_id ≡ self.now.table.shared.table_id }
        requires can { (b : Book) × (t : Task) × CanJoin seat.old.me.0 other.me.0 b t }
        requires out { other.me.1 ≡ [] }
        ensures table { seat.new.table_id ≡ seat.old.table_id }
        ensures joined { seat.new.me ≡ (after_join seat.old.me.0 other.me.0, seat.old.me.1) }
    {
        self.table.shared.join_seat::<Part>(seat, other);
    }
}
