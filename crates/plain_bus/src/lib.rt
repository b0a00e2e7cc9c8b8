//! The bus of one thread: a machine whose pages are in cells, the queue of faulted pages, and the order of the events
//! so far. It moves as the core does, one turn a call: a vCPU's next event or its stop, a pick from the queue, a page
//! copied out. Below stand `page_cell`, a cell's part of an event and the contract of a plant, and `flat_machine`.
#![tactic(auto)]

mod answer;
mod cell_machine;
mod pages;
mod plain_bus;
mod plant;
mod room;
mod vcpus;

pub use answer::{Closed, StepAnswer};
pub use plain_bus::PlainBus;
pub use plant::BusRest;

#[cfg(test)]
mod tests;
