ghost use Rattle.std.specs.Prelude.{◌≡◌, ◌<◌, [], ◌∷◌, IfOk, None, Some, true};
ghost use Rattle.crossbeam_queue.specs.Passes.{view, IsPassOf, ruled_capacity};
ghost use Rattle.write_pipe.specs.Rule.{log};
ghost use Rattle.write_pipe.specs.Opening.{begins_at, comes_to};

use crate::filled::Filled;
use crate::inlet::Inlet;
use crate::outlet::Outlet;
use crate::rule::{Opened, Queue, QueuePass, Roles, Sent};
use page_cell::{PageBuf, Plant};
use ram_block::NoMemory;
use std::alloc::Global;
use std::snapshot::Snapshot;
use std::sync::Arc;

/// The two ends of a new queue for so many buffers.
pub(crate) fn ends<P: Plant>(
    alloc: Global,
    plant: &P,
    pages: u32,
    room: u32,
) -> Result<(Inlet<P>, Outlet<P>), NoMemory>
    requires room { 0 < room }
    requires pages { pages ≡ P.total plant.now }
    ensures inlet { IfOk result (λ ends. ends.0 ≡ begins_at plant.now ends.0.queue) }
    ensures outlet { IfOk result (λ ends. ends.1 ≡ comes_to plant.now ends.0.queue) }
{
    let (queue, mut writer) = opened(alloc, plant, room)?;
    let reader = queue.another::<Roles>(&mut writer);
    let queue = Arc::new(alloc, queue)?;
    let other = Arc::try_clone(&queue)?;
    let inlet = Inlet {
        queue,
        pass: writer,
        from: Snapshot::of(plant),
        found_full: 0,
    };
    let outlet = Outlet {
        queue: other,
        pass: reader,
        from: Snapshot::of(plant),
        pages,
        come: 0,
        found_empty: 0,
    };
    Ok((inlet, outlet))
}

// An empty queue, whose one pass knows the plant.
fn opened<P: Plant>(
    alloc: Global,
    plant: &P,
    room: u32,
) -> Result<(Queue<P>, QueuePass<P>), NoMemory>
    requires { 0 < room }
    ensures pass { IfOk result (λ q. IsPassOf q.0 q.1) }
    ensures known { IfOk result (λ q. view q.1 ≡ log true true (Some plant.now) [] []) }
{
    let first = Filled {
        page: 0,
        bytes: PageBuf::new(alloc)?,
        from: Some(Snapshot::of(plant)),
    };
    let (queue, mut pass) = Queue::ruled(alloc, room as usize)?;
    let Ok(()) = queue.try_push_as::<Sent>(&mut pass, first) else {
        return Err(NoMemory);
    };
    let Some(_) = queue.try_pop_as::<Opened>(&mut pass) else {
        return Err(NoMemory);
    };
    Ok((queue, pass))
}
