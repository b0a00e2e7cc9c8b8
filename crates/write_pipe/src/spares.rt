ghost use Rattle.std.specs.Prelude.{◌<◌, ◌≤◌};
ghost use Rattle.write_pipe.specs.declared.relay_pages.TheConstants.{MAX_ROOM};

use crossbeam_queue::ArrayQueue;
use page_cell::PageBuf;
use ram_block::NoMemory;
use std::alloc::Global;

/// The spare buffers of a relay that holds so many pages, with room for all of them: two more than pages, since each end has
/// one in hand.
pub(crate) fn spares_of(alloc: Global, room: u32) -> Result<ArrayQueue<PageBuf, Global>, NoMemory>
    requires some { 0 < room }
    requires most { room ≤ MAX_ROOM }
{
    let buffers = room as usize + 2;
    let mut spares = ArrayQueue::new(alloc, buffers)?;
    for _ in 0..buffers {
        let Ok(()) = spares.push_mut(PageBuf::new(alloc)?) else {
            return Err(NoMemory);
        };
    }
    Ok(spares)
}
