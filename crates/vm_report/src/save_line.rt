use bg_saver::{Counts, SaveEnd};

/// What the report says of a save.
#[derive(Clone, Copy, Debug, PartialEq, Eq)]
pub struct SaveLine {
    pub end: SaveEnd,
    /// How often a vCPU was stopped.
    pub blocked: u64,
    pub counts: Counts,
}
