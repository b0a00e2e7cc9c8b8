use ram_block::{Cause, Place, Width};
use rv64i_decode::AmoOp;

/// What a vCPU needs of the machine for its next event. A value has no bits above its width.
#[derive(Clone, Copy, Debug, PartialEq, Eq)]
pub enum Request {
    /// The vCPU is halted: it has no next event.
    Nothing,
    /// A fetch that halts, since its pc has no place.
    NoFetch(Cause),
    /// The four bytes from `off` on, in bytes from the page's start.
    Fetch {
        page: u32,
        off: u32,
    },
    Load {
        place: Place,
        width: Width,
    },
    Store {
        place: Place,
        width: Width,
        value: u64,
    },
    Amo {
        place: Place,
        width: Width,
        op: AmoOp,
        value: u64,
    },
}
