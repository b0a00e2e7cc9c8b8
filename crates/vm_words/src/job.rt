use crate::{Input, Turns};
use ram_block::Shape;

/// How a save runs its vCPUs.
#[derive(Clone, Copy, Debug, PartialEq, Eq)]
pub enum Mode {
    /// In one thread, a turn after another.
    Sliced,
    /// Each vCPU and the saver in a thread of its own.
    Threads,
}

/// What a line asks for, but for its files.
#[derive(Debug, Drop)]
pub enum Job {
    /// Run a guest and write its snapshot file. The instructions of `stop` and `run` count for each vCPU, and in
    /// `Threads` there are no turns.
    Save {
        shape: Shape,
        stop: u32,
        run: u32,
        mode: Mode,
        turns: Turns,
        input: Input,
        relay: u32,
    },
    /// Load a snapshot file and run its guest on.
    Restore {
        run: u32,
        lazy: bool,
    },
    /// Load a snapshot file.
    CheckFile,
    /// Assemble a text.
    Assemble,
    /// Save the guest that is made of a seed.
    Workload {
        seed: u64,
    },
    /// Read bytes of RAM out of a snapshot file. The place counts from the start of RAM.
    Peek {
        shape: Shape,
        at: u32,
        len: u32,
    },
    /// Run the guest of a snapshot file on and write what changed.
    Layer {
        run: u32,
    },
    /// Join a snapshot file with a layer.
    Join,
    /// Run a guest in threads and write the order of its events.
    Record {
        shape: Shape,
        run: u32,
        input: Input,
    },
    /// Run a guest in a recorded order.
    Replay {
        shape: Shape,
        input: Input,
    },
}
