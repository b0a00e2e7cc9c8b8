ghost use Rattle.std.specs.Prelude.{◌≡◌, ◌<◌, ◌≤◌, [], All, IfSome, None, length, replicate, true, vec_capacity, vec_len};
ghost use Rattle.ram_block.specs.declared.page_buf.TheConstants.{PAGE};
ghost use Rattle.rv64i_step.specs.Request.{written_page};
ghost use Rattle.flat_machine.specs.Cell.{PageCell, page_after, page_gives};
ghost use Rattle.flat_machine.specs.Fits.{FitsPage, IsWordIfFetched};
ghost use Rattle.flat_machine.specs.Next.{cell_of};
ghost use Rattle.flat_machine.specs.Page.{joined, page_at, with_page};
ghost use Rattle.page_cell.specs.Cell.{writes};
ghost use Rattle.page_cell.specs.Core.{is_protected, protected_page};
ghost use Rattle.plain_bus.specs.Cells.{IsWholePage, buffer_after, flags_after, flags_of, is_writable, ram_of, taken_where};

use page_cell::{Cell, PageBuf, Phase, Taken};
use ram_block::Place;
use rv64i_step::Request;

/// Moves the pages of RAM into cells, in this phase.
pub(crate) fn into_cells(ram: &mut Vec<PageBuf>, cells: &mut Vec<Cell>, phase: Phase)
    requires whole { All (λ page. length page ≡ PAGE) ram.old.items }
    requires empty { cells.old.items ≡ [] }
    requires room { vec_len ram.old ≤ vec_capacity cells.old }
    ensures ram { ram_of cells.new.items ≡ joined ram.old.items }
    ensures flags { flags_of cells.new.items ≡ replicate (vec_len ram.old) (is_writable phase) }
    ensures pages { vec_len cells.new ≡ vec_len ram.old }
    ensures whole { All IsWholePage cells.new.items }
    ensures emptied { ram.new.items ≡ [] }
    ensures kept { vec_len ram.old ≤ vec_capacity ram.new }
{
    ram.reverse();
    while let Some(bytes) = ram.pop() {
        cells.push_reserved(Cell::Page { bytes, phase });
    }
}

/// Moves the pages back.
pub(crate) fn into_ram(cells: &mut Vec<Cell>, ram: &mut Vec<PageBuf>)
    requires whole { All IsWholePage cells.old.items }
    requires empty { ram.old.items ≡ [] }
    requires room { vec_len cells.old ≤ vec_capacity ram.old }
    ensures ram { joined ram.new.items ≡ ram_of cells.old.items }
    ensures pages { vec_len ram.new ≡ vec_len cells.old }
    ensures whole { All (λ page. length page ≡ PAGE) ram.new.items }
{
    cells.reverse();
    while let Some(cell) = cells.pop() {
        match cell {
            Cell::Page { bytes, .. } => ram.push_reserved(bytes),
            _ => unreachable!(),
        }
    }
}

/// The protected page that stops a request.
#[tactic(auto, using(crate::proofs::Cells::stopping))]
#[inline(always)]
pub(crate) fn stopped_on(pages: &[Cell], request: &Request) -> Option<u32>
    requires whole { All IsWholePage pages.now }
    requires within { IfSome (written_page request.now) (λ p. p < length pages.now) }
    ensures { result ≡ protected_page (flags_of pages.now) (written_page request.now) }
{
    let page = page_written(request)?;
    if pages[page as usize].stops(request) {
        Some(page)
    } else {
        None
    }
}

// The page that a request writes.
#[inline(always)]
fn page_written(request: &Request) -> Option<u32>
    ensures page { result ≡ written_page request.now }
    ensures writes { IfSome result (λ p. writes request.now ≡ true) }
{
    match *request {
        Request::Store {
            place: Place::Ram { page, .. },
            ..
        }
        | Request::Amo {
            place: Place::Ram { page, .. },
            ..
        } => Some(page),
        _ => None,
    }
}

/// The part of an event that a page has, which doesn't stop it.
#[inline(always)]
pub(crate) fn apply_to_cells(pages: &mut Vec<Cell>, page: u32, request: &Request, time: u64) -> u64
    requires fits { FitsPage request.now }
    requires page { page < vec_len pages.old }
    requires touches { cell_of request.now ≡ Some (PageCell page) }
    requires whole { All IsWholePage pages.old.items }
    requires free { protected_page (flags_of pages.old.items) (written_page request.now) ≡ None }
    ensures gives { result ≡ page_gives request.now (page_at (ram_of pages.old.items) page) }
    ensures after { ram_of pages.new.items ≡ with_page (ram_of pages.old.items) page (page_after request.now (page_at (ram_of pages.old.items) page)) }
    ensures flags { flags_of pages.new.items ≡ flags_of pages.old.items }
    ensures word { IsWordIfFetched request.now result }
    ensures pages { vec_len pages.new ≡ vec_len pages.old }
    ensures whole { All IsWholePage pages.new.items }
{
    pages[page as usize].apply(request, time)
}

/// Copies a protected page out and makes it writable.
pub(crate) fn take_from(pages: &mut Vec<Cell>, page: u32, into: &mut PageBuf) -> Taken
    requires page { page < vec_len pages.old }
    requires whole { All IsWholePage pages.old.items }
    ensures taken { result ≡ taken_where (is_protected (flags_of pages.old.items) page) }
    ensures ram { ram_of pages.new.items ≡ ram_of pages.old.items }
    ensures flags { flags_of pages.new.items ≡ flags_after (flags_of pages.old.items) page (is_protected (flags_of pages.old.items) page) }
    ensures buffer { into.new ≡ buffer_after (page_at (ram_of pages.old.items) page) into.old (is_protected (flags_of pages.old.items) page) }
    ensures pages { vec_len pages.new ≡ vec_len pages.old }
    ensures whole { All IsWholePage pages.new.items }
{
    let cell = &mut pages[page as usize];
    cell.take(into)
}
