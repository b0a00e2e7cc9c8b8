use flat_machine::{Machine, Order};

/// What a vCPU's turn answers.
#[derive(Clone, Copy, Debug, PartialEq, Eq)]
pub enum StepAnswer {
    /// It made one event.
    Done,
    /// A protected page stopped its next event, and is queued.
    Stopped(u32),
    /// This cell was found held.
    Busy(u32),
    /// Its phase has ended.
    Idle,
}

/// What is left of a bus that was closed: the machine, and the order of the events since the start.
#[derive(Drop)]
pub struct Closed {
    pub machine: Machine,
    pub order: Order,
}
