ghost use Rattle.std.specs.Prelude.{◌≡◌, ◌<◌, false};
ghost use Rattle.ram_block.specs.PageLinks.{is_listed};
ghost use Rattle.write_pipe.specs.Inlet.{IsInlet, LeavesSend};
ghost use Rattle.write_pipe.specs.Rule.{AreBytesOf};

use crate::filled::Filled;
use crate::outlet::InHand;
use crate::rule::{Queue, QueuePass, Sent};
use page_cell::Plant;
use std::alloc::Global;
use std::marker::Model;
use std::snapshot::Snapshot;
use std::sync::{Arc, Wait};

/// The end of the queue at which buffers go in.
#[derive(Drop)]
pub struct Inlet<P: Plant> {
    pub(crate) queue: Arc<Queue<P>, Global>,
    pub(crate) pass: QueuePass<P>,
    pub(crate) from: Snapshot<P>,
    pub(crate) found_full: u64,
}

impl<P: Plant> Model for Inlet<P> {
    ghost use Rattle.write_pipe.specs.Inlet.{InletData, IsInletInside, inlet_of};

    ghost Value = { InletData P };

    ghost view = { inlet_of };

    ghost invariant = { IsInletInside P.total P.stands };
}

impl<P: Plant> Inlet<P> {
    /// Sends a page that hasn't been sent, or hands it back where a push found the queue full.
    pub(crate) fn send<R: Wait>(&mut self, rt: &R, hand: InHand) -> Option<InHand>
        requires page { hand.page < P.total self.old.from }
        requires first { is_listed self.old.sent hand.page ≡ false }
        requires bytes { AreBytesOf P.total P.stands self.old.from hand.page hand.bytes }
        ensures send { LeavesSend self.old hand result self.new }
        ensures limits { IsInlet P.total P.stands self.new }
    {
        let queue = &*self.queue;
        let InHand { page, bytes } = hand;
        let filled = Filled {
            page,
            bytes,
            from: None,
        };
        match queue.push_as::<Sent, R>(rt, &mut self.pass, filled) {
            Ok(()) => None,
            Err(
                Filled {
                    page,
                    bytes,
                    from: _,
                },
            ) => {
                self.found_full = self.found_full.saturating_add(1);
                Some(InHand { page, bytes })
            }
        }
    }
}
