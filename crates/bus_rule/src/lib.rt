//! The rule of the bus that threads share: what its lock words, its cells and the passes of the vCPUs and the saver have
//! to do with one another between any two atomic steps. The bus is a table of words and cells; a thread takes its steps
//! with a seat, whose view is what its pass knows. Here stand the rule, the kinds of atomic step, each of which keeps it,
//! what a pass does with a cell that it holds, the start and the end of a bus, and the laws of the order and of the rule.
//! Below stand `atomic_table`, in which each step is one of hardware, `page_cell`, a cell's part of an event, and
//! `flat_machine`, whose events and runs these are.
#![tactic(auto)]

mod bus;
mod cells;
mod laws;
mod life;
mod plays;
mod rule;

pub use bus::{Bus, PassSeat};
pub use laws::{an_event_more_is_the_last_in_the_order, the_rule_says_eight_things};
pub use rule::{About, BusRule, PassView};
