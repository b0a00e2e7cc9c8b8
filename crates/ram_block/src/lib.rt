//! The shape of a machine and its guest-physical address space: pages, blocks and vCPUs; the limits that crates
//! share; and, in `specs/` alone, lists of pages as links by page number.
//! Every other crate stands on this one, which stands on none of the repository's.
#![tactic(auto)]

mod cause;
mod gate;
mod limits;
mod locate;
mod no_memory;
mod page_buf;
mod place;
mod shape;

pub use cause::Cause;
pub use gate::{Gate, NoGate};
pub use limits::{MAX_INPUT, MAX_PHASE, MAX_RAM, MOST_AT_REST};
pub use no_memory::NoMemory;
pub use page_buf::{PAGE, PageBuf};
pub use place::{Place, SerialReg, TimerReg, Way, Width};
pub use shape::{MAX_BLOCKS, MAX_PAGES, MAX_VCPUS, RAM_BASE, Shape, ShapeFault};

#[cfg(test)]
mod tests;
