ghost use Rattle.std.specs.Prelude.{◌≡◌, ◌≤◌, [], All, vec_capacity, vec_len};
ghost use Rattle.page_cell.specs.Cell.{IsPage};
ghost use Rattle.page_bus.specs.Moves.{are_pages_in, bytes_of_all};

use page_cell::{Cell, PageBuf, Phase};

/// Moves the pages of RAM into cells, in this phase.
pub(crate) fn into_pages(ram: &mut Vec<PageBuf>, cells: &mut Vec<Cell>, phase: Phase)
    requires empty { cells.old.items ≡ [] }
    requires room { vec_len ram.old ≤ vec_capacity cells.old }
    ensures cells { cells.new.items ≡ are_pages_in phase ram.old.items }
    ensures emptied { ram.new.items ≡ [] }
    ensures kept { vec_len ram.old ≤ vec_capacity ram.new }
    ensures capacity { vec_capacity cells.new ≡ vec_capacity cells.old }
{
    ram.reverse();
    while let Some(bytes) = ram.pop() {
        cells.push_reserved(Cell::Page { bytes, phase });
    }
}

/// Moves the pages back.
pub(crate) fn out_of_pages(cells: &mut Vec<Cell>, ram: &mut Vec<PageBuf>)
    requires pages { All IsPage cells.old.items }
    requires empty { ram.old.items ≡ [] }
    requires room { vec_len cells.old ≤ vec_capacity ram.old }
    ensures { ram.new.items ≡ bytes_of_all cells.old.items }
{
    cells.reverse();
    while let Some(cell) = cells.pop() {
        match cell {
            Cell::Page { bytes, .. } => ram.push_reserved(bytes),
            _ => unreachable!(),
        }
    }
}
