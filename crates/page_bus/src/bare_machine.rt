ghost use Rattle.std.specs.Prelude.{◌≡◌, ◌≤◌, [], ◌∷◌, ◌++◌, List, ℕ, replicate, vec_capacity};
ghost use Rattle.ram_block.specs.Shape.{total_pages_of};
ghost use Rattle.serial_timer.specs.Serial.{SerialData};
ghost use Rattle.flat_machine.specs.Machine.{IsMachine};
ghost use Rattle.wp_fault.specs.Queue.{QueueData};
ghost use Rattle.page_cell.specs.declared.cell.Cell.{Cell};
ghost use Rattle.page_cell.specs.declared.cell.Cell.TheVariants as kinds;
ghost use Rattle.plain_bus.specs.Cells.{is_writable};
ghost use Rattle.bus_rule.specs.Kept.{cells_of};
ghost use Rattle.page_bus.specs.Moves.{AreCellsOf, IsBareOf, IsWhole};

use crate::pages::{into_pages, out_of_pages};
use flat_machine::{Machine, Parts};
use page_cell::{Cell, PageBuf, Phase};
use ram_block::Shape;
use rv64i_step::Vcpu;
use serial_timer::{Serial, Timer};
use wp_fault::FaultQueue;

/// What of a machine isn't in cells, whose pages and devices were moved there, and the emptied list of its pages.
#[derive(Drop)]
pub(crate) struct BareMachine {
    pub(crate) shape: Shape,
    pub(crate) vcpus: Vec<Vcpu>,
    pub(crate) clock: u64,
    pub(crate) ram: Vec<PageBuf>,
}

/// Moves a machine's pages, in this phase, and its devices into cells, and puts the queue behind them.
pub(crate) fn into_cells(
    machine: Machine,
    cells: &mut Vec<Cell>,
    faults: FaultQueue,
    phase: Phase,
) -> BareMachine
    requires empty { cells.old.items ≡ [] }
    requires room { cells_of machine.shape ≤ vec_capacity cells.old }
    requires faults { faults ≡ record { pages = total_pages_of machine.shape; list = [] } }
    ensures cells { AreCellsOf machine (replicate (total_pages_of machine.shape) (is_writable phase)) [] cells.new.items }
    ensures bare { IsBareOf machine result }
    ensures limits { IsMachine machine }
{
    let Parts {
        shape,
        mut ram,
        vcpus,
        serial,
        timer,
        clock,
    } = machine.into_parts();
    into_pages(&mut ram, cells, phase);
    cells.push_reserved(Cell::Serial(serial));
    cells.push_reserved(Cell::Timer(timer));
    cells.push_reserved(Cell::Faults(faults));
    BareMachine {
        shape,
        vcpus,
        clock,
        ram,
    }
}

/// The machine, with its pages and devices moved back.
pub(crate) fn out_of_cells(bare: BareMachine, cells: Vec<Cell>) -> Machine
    requires { IsWhole bare cells.items }
    ensures machine { (whole : IsWhole bare cells.items) → result ≡ whole.machine }
    ensures limits { IsMachine result }
{
    let BareMachine {
        shape,
        vcpus,
        clock,
        mut ram,
    } = bare;
    let mut cells = cells;
    pop_faults(&mut cells);
    let timer = pop_timer(&mut cells);
    let serial = pop_serial(&mut cells);
    out_of_pages(&mut cells, &mut ram);
    Machine::of(shape, ram, vcpus, serial, timer, clock)
}

// The last cell, which is the queue of faulted pages.
fn pop_faults(cells: &mut Vec<Cell>)
    requires { (rest : List Cell) × (queue : QueueData) × (cells.old.items ≡ rest ++ kinds.Faults queue ∷ []) }
    ensures { (rest : List Cell) (queue : QueueData) → cells.old.items ≡ rest ++ kinds.Faults queue ∷ [] → cells.new.items ≡ rest }
{
    match cells.pop() {
        Some(Cell::Faults(_)) => {}
        _ => unreachable!(),
    }
}

// The last cell, which is the timer.
fn pop_timer(cells: &mut Vec<Cell>) -> Timer
    requires { (rest : List Cell) × (cmp : ℕ) × (cells.old.items ≡ rest ++ kinds.Timer cmp ∷ []) }
    ensures cells { (rest : List Cell) (cmp : ℕ) → cells.old.items ≡ rest ++ kinds.Timer cmp ∷ [] → cells.new.items ≡ rest }
    ensures timer { (rest : List Cell) (cmp : ℕ) → cells.old.items ≡ rest ++ kinds.Timer cmp ∷ [] → result ≡ cmp }
{
    match cells.pop() {
        Some(cell) => timer_in(&cell),
        None => unreachable!(),
    }
}

// The timer that a cell is.
fn timer_in(cell: &Cell) -> Timer
    requires { (cmp : ℕ) × (cell.now ≡ kinds.Timer cmp) }
    ensures { (cmp : ℕ) → cell.now ≡ kinds.Timer cmp → result ≡ cmp }
{
    match cell {
        Cell::Timer(timer) => Timer::of(timer.cmp()),
        _ => unreachable!(),
    }
}

// The last cell, which is the serial device.
fn pop_serial(cells: &mut Vec<Cell>) -> Serial
    requires { (rest : List Cell) × (serial : SerialData) × (cells.old.items ≡ rest ++ kinds.Serial serial ∷ []) }
    ensures cells { (rest : List Cell) (serial : SerialData) → cells.old.items ≡ rest ++ kinds.Serial serial ∷ [] → cells.new.items ≡ rest }
    ensures serial { (rest : List Cell) (serial : SerialData) → cells.old.items ≡ rest ++ kinds.Serial serial ∷ [] → result ≡ serial }
{
    match cells.pop() {
        Some(Cell::Serial(serial)) => serial,
        _ => unreachable!(),
    }
}
