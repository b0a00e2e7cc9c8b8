use crate::{Counts, SaveEnd, Saver};
use flat_machine::{Machine, Order};

/// A save that has begun, with the file that it writes.
// The saver is a type parameter so that a clause can name the file that a job left behind.
#[derive(Drop)]
pub struct SaveJob<'a, M, S = Saver> {
    pub saver: S,
    pub medium: &'a mut M,
}

/// What is left of a second phase: the machine, the order of its events, how the save ended where there was one, how
/// often a vCPU was stopped, and what the saver counted.
#[derive(Drop)]
pub struct PhaseOut {
    pub machine: Machine,
    pub order: Order,
    pub saved: Option<SaveEnd>,
    pub blocked: u64,
    pub counts: Counts,
}
