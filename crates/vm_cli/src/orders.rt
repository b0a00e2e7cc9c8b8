ghost use Rattle.std.specs.Prelude.{◌≡◌, []};

use flat_machine::Order;
use std::alloc::Global;

/// The orders of the two phases of a job, each empty until its phase has ended.
#[derive(Drop)]
pub(crate) struct Orders {
    pub(crate) first: Order,
    pub(crate) second: Order,
}

impl Orders {
    /// No phase has ended.
    pub(crate) fn empty(alloc: Global) -> Orders
        ensures first { result.first.members ≡ [] }
        ensures second { result.second.members ≡ [] }
    {
        Orders {
            first: Order::empty(alloc),
            second: Order::empty(alloc),
        }
    }
}
