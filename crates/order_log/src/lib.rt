//! The text of an order of events, read back, and an order replayed: an order that was kept makes the same machine of
//! the same boot. It stands on `flat_machine`, whose orders and runs these are, on `mig_stream`, which reads and puts
//! numbers, and on `medium` and `ram_block`.
#![tactic(auto)]

mod fault;
mod format;
mod get;
mod members;
mod piece;
mod put;
mod replay_order;

pub use fault::{OrderFault, OrderRefusal};
pub use format::{HEAD_LEN, MAGIC, MAX_EVENTS, VERSION};
pub use get::get_order;
pub use put::put_order;
pub use replay_order::replay;

#[cfg(test)]
mod tests;
