//! A stopped machine: the instant of a save, a machine at rest that is kept whole beside its device text. What stops
//! is the machine that was given, and it is given back the same; want of memory hands it back at once. Below it stand
//! `device_state`, which puts the text, `flat_machine` and `ram_block`.
#![tactic(auto)]

mod stopped;

pub use stopped::{Stopped, stop};

#[cfg(test)]
mod tests;
