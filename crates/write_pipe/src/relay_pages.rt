ghost use Rattle.std.specs.Prelude.{◌≡◌, ◌<◌, ◌≤◌, All, IfOk, false};
ghost use Rattle.bg_saver.specs.Members.{plant_state};
ghost use Rattle.write_pipe.specs.CopyEnd.{IsCopyEnd, IsOfCopy};
ghost use Rattle.write_pipe.specs.Opening.{begins_at, comes_to, copies_all, takes_none};
ghost use Rattle.write_pipe.specs.WriteEnd.{IsWriteEnd};

use crate::begin::{copy_end, write_end};
use crate::open::ends;
use crate::spares::spares_of;
use crate::{CopyEnd, WriteEnd};
use page_cell::Plant;
use ram_block::NoMemory;
use std::alloc::Global;
use std::sync::Arc;

/// How many pages a relay holds at most.
pub const MAX_ROOM: u32 = 64;

/// The two ends of a new relay, through which the pages of a plant go, so many at a time. All its memory is taken here.
pub fn relay<P: Plant>(
    alloc: Global,
    plant: &P,
    pages: u32,
    room: u32,
) -> Result<(CopyEnd<P>, WriteEnd<P>), NoMemory>
    requires fits { P.fits plant.now }
    requires protected { All (λ w. w ≡ false) (P.writable plant.now) }
    requires pages { pages ≡ P.total plant.now }
    requires some { 0 < room }
    requires most { room ≤ MAX_ROOM }
    ensures copies { IfOk result (λ ends. ends.0 ≡ copies_all (begins_at plant.now ends.0.inlet.queue) pages) }
    ensures writes { IfOk result (λ ends. ends.1 ≡ takes_none (comes_to plant.now ends.0.inlet.queue) pages) }
    ensures of_copy { IfOk result (λ ends. IsOfCopy P.total P.stands ends.0 (plant_state P.Plant plant.now)) }
    ensures copy_limits { IfOk result (λ ends. IsCopyEnd P.total P.stands ends.0) }
    ensures write_limits { IfOk result (λ ends. IsWriteEnd P.total P.writable P.stands P.fits ends.1) }
{
    let (inlet, outlet) = ends(alloc, plant, pages, room)?;
    let spares = Arc::new(alloc, spares_of(alloc, room)?)?;
    let emptied = Arc::try_clone(&spares)?;
    let copier = copy_end(alloc, inlet, spares, pages)?;
    let writer = write_end(alloc, outlet, emptied, pages)?;
    Ok((copier, writer))
}
