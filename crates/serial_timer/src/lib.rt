//! The serial device and the timer: what each access to a register of theirs answers and changes.
//! Below it stands `ram_block` alone, which says at which addresses the registers are.
#![tactic(auto)]

mod serial;
mod timer;

pub use serial::{MAX_SERIAL_BYTES, Serial};
pub use timer::Timer;

#[cfg(test)]
mod tests;
