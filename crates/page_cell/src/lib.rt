//! A cell is what one event touches beside its vCPU, with what a save adds to it: a page that is protected or
//! writable, the serial device, the timer, and the queue of faulted pages. Here stand a cell's part of an event and
//! the contract of a `Plant`, which gives a saver the faulted pages and the bytes of the instant; and the law of the
//! core, which says of any list of turns that what was recorded is the instant. Below stand `flat_machine`, whose
//! events these are, the devices, and `wp_fault`, the queue.
#![tactic(auto)]

mod cell;
mod laws;
mod phase;
mod plant;

pub use cell::Cell;
pub use laws::{an_event_is_made_of_its_parts, what_is_recorded_is_the_instant};
pub use phase::Phase;
pub use plant::{Pick, Plant, Taken};
pub use ram_block::PageBuf;

#[cfg(test)]
mod tests;
