//! Pages go from the worker that copies them out of a plant to the worker that saves them through a queue, so that a slow
//! write holds up no copy until the queue is full. Each page comes out once at most, in the order in which the pages went
//! in, with its bytes of the instant. Below stand `page_cell`, whose `Plant` gives the pages and which the end of the saver
//! is again, and `ram_block`.
#![tactic(auto)]

mod begin;
mod beside;
mod copy_end;
mod copy_turn;
mod copying;
mod fetch;
mod filled;
mod inlet;
mod open;
mod outlet;
mod relay_pages;
mod rule;
mod run;
mod spares;
mod write_end;
mod writing;

pub use copy_end::CopyEnd;
pub use copy_turn::CopyTurn;
pub use fetch::{Discard, Fetch};
pub use inlet::Inlet;
pub use outlet::Outlet;
pub use relay_pages::{MAX_ROOM, relay};
pub use run::run_relayed;
pub use write_end::WriteEnd;
