//! Snapshot files made by hand, piece by piece and byte by byte, for the tests of what writes and reads them. No part of the
//! program stands on it.
#![tactic(auto)]

mod snapshot;

pub use snapshot::{AT_BOOT, Cpu, GUEST, SMALLEST, Snapshot, file_of};
