ghost use Rattle.std.specs.Prelude.{◌≡◌, [], All, IfOk, false};
ghost use Rattle.std.specs.List.{range_with_len};
ghost use Rattle.page_sweep.specs.Sweep.{IsSweep};
ghost use Rattle.write_pipe.specs.Opening.{copies_all, takes_none};

use crate::copy_end::CopyEnd;
use crate::inlet::Inlet;
use crate::outlet::Outlet;
use crate::write_end::WriteEnd;
use bg_saver::Counts;
use crossbeam_queue::ArrayQueue;
use page_cell::{PageBuf, Plant};
use page_sweep::Sweep;
use ram_block::NoMemory;
use std::alloc::Global;
use std::sync::Arc;

/// The end of the copier, with all pages left.
pub(crate) fn copy_end<P: Plant>(
    alloc: Global,
    inlet: Inlet<P>,
    spares: Arc<ArrayQueue<PageBuf>, Global>,
    pages: u32,
) -> Result<CopyEnd<P>, NoMemory>
    requires sent { inlet.sent ≡ [] }
    requires pages { pages ≡ P.total inlet.from }
    ensures { IfOk result (λ end. end ≡ copies_all inlet pages) }
{
    let sweep = full_sweep(alloc, pages)?;
    let faulted = vec![in alloc; false; pages as usize]?;
    Ok(CopyEnd {
        inlet,
        spares,
        spare: None,
        pages,
        sweep,
        hand: None,
        wanted: None,
        counts: Counts {
            faults: 0,
            sweep: 0,
        },
        faulted,
        found_none: 0,
    })
}

// The sweep with all pages left.
fn full_sweep(alloc: Global, pages: u32) -> Result<Sweep, NoMemory>
    ensures all { IfOk result (λ s. s ≡ record { pages = pages; list = range_with_len 0 pages }) }
    ensures kept { IfOk result IsSweep }
{
    let sweep = Sweep::full(alloc, pages)?;
    let _left = sweep.left();
    Ok(sweep)
}

/// The end of the saver, with no page in hand and none taken.
pub(crate) fn write_end<P: Plant>(
    alloc: Global,
    outlet: Outlet<P>,
    spares: Arc<ArrayQueue<PageBuf>, Global>,
    pages: u32,
) -> Result<WriteEnd<P>, NoMemory>
    requires origin { P.fits outlet.from }
    requires protected { All (λ w. w ≡ false) (P.writable outlet.from) }
    requires pages { pages ≡ P.total outlet.from }
    ensures { IfOk result (λ end. end ≡ takes_none outlet pages) }
{
    let writable = vec![in alloc; false; pages as usize]?;
    let picked = vec![in alloc; false; pages as usize]?;
    Ok(WriteEnd {
        outlet,
        spares,
        hand: None,
        emptied: None,
        writable,
        picked,
        busy: 0,
        picks: 0,
        last: None,
    })
}
