use crate::{MAX_BLOCKS, MAX_PAGES, PAGE};

/// The most instructions of a phase, for each vCPU.
pub const MAX_PHASE: u32 = 1_000_000;

/// The most bytes of a machine's serial input.
pub const MAX_INPUT: usize = 4096;

/// The greatest clock, and the greatest count of steps, of a machine at rest.
pub const MOST_AT_REST: u64 = 1 << 62;

/// The most bytes of RAM that a machine has.
pub const MAX_RAM: u64 = MAX_BLOCKS as u64 * MAX_PAGES as u64 * PAGE as u64;
