//! The bus that threads share: a machine whose pages and devices are in cells, each with a lock. vCPUs step on it and the
//! saver picks and takes pages from it, each by a pass of its own, beside one another and without ever waiting: a call
//! takes at most two locks, and answers that it found one held. When all passes come back, the bus closes with the
//! machine and the one order of all events that makes it. Below stand `bus_rule`, which each atomic step keeps,
//! `plain_bus`, whose answers these are, `page_cell`, a cell's part of an event and the contract of a plant, and
//! `flat_machine`.
#![tactic(auto)]

mod bare_machine;
mod bus;
mod close;
mod join;
mod merge;
mod open;
mod pages;
mod pick;
mod plant;
mod release;
mod room;
mod saver_pass;
mod traced_vcpu;
mod turn;
mod vcpu_pass;

pub use bus::Bus;
pub use plant::{EndRest, SaverEnd};
pub use saver_pass::SaverPass;
pub use vcpu_pass::VcpuPass;

#[cfg(test)]
mod tests;
