//! The second phase of a save on one thread: vCPUs and saver by the turns of a line, then the saver's turns until the
//! save has ended, then rounds. It stands on `plain_bus`, which moves as the core does, and on `bg_saver`, which saves the
//! instant.
#![tactic(auto)]

mod running;
mod sliced;

pub use running::run_turns;
