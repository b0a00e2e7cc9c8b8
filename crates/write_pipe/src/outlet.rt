ghost use Rattle.std.specs.Prelude.{◌≡◌, ◌↔◌, true, length};
ghost use Rattle.write_pipe.specs.Outlet.{IsOutlet, LeavesNext};

use crate::filled::Filled;
use crate::rule::{Got, Queue, QueuePass};
use page_cell::{PageBuf, Plant};
use std::alloc::Global;
use std::marker::Model;
use std::snapshot::Snapshot;
use std::sync::{Arc, Wait};

/// A page that came out of the queue, with its bytes.
#[derive(Drop)]
pub(crate) struct InHand {
    pub(crate) page: u32,
    pub(crate) bytes: PageBuf,
}

/// The end of the queue at which buffers come out.
#[derive(Drop)]
pub struct Outlet<P: Plant> {
    pub(crate) queue: Arc<Queue<P>, Global>,
    pub(crate) pass: QueuePass<P>,
    pub(crate) from: Snapshot<P>,
    pub(crate) pages: u32,
    // How many pages have come out.
    pub(crate) come: u32,
    pub(crate) found_empty: u64,
}

impl<P: Plant> Model for Outlet<P> {
    ghost use Rattle.write_pipe.specs.Outlet.{IsOutletInside, OutletData, outlet_of};

    ghost Value = { OutletData P };

    ghost view = { outlet_of };

    ghost invariant = { IsOutletInside P.total P.stands };
}

impl<P: Plant> Outlet<P> {
    /// The next buffer of the queue, or none where a pop found it empty.
    pub(crate) fn next<R: Wait>(&mut self, rt: &R) -> Option<InHand>
        ensures next { LeavesNext P.total P.stands self.old result self.new }
        ensures limits { IsOutlet P.total P.stands self.new }
    {
        let queue = &*self.queue;
        match queue.pop_as::<Got<P>, R>(rt, &mut self.pass) {
            Some(
                Filled {
                    page,
                    bytes,
                    from: _,
                },
            ) => {
                self.come += 1;
                Some(InHand { page, bytes })
            }
            None => {
                self.found_empty = self.found_empty.saturating_add(1);
                None
            }
        }
    }

    /// Whether all pages have come out.
    pub(crate) fn is_drained(&self) -> bool
        ensures all { result ≡ true ↔ (length self.now.out ≡ P.total self.now.from) }
        ensures limits { IsOutlet P.total P.stands self.now }
    {
        self.come == self.pages
    }

    /// How many pages there are.
    pub(crate) fn pages(&self) -> u32
        ensures pages { result ≡ P.total self.now.from }
        ensures limits { IsOutlet P.total P.stands self.now }
    {
        self.pages
    }
}
