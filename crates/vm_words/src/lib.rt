//! The words of a line: the job that they give, or the first word that is wrong and how.
//! Every text is a job or a fault by the tables of `specs/`, in which each key has its form, limits and default.
//! Below it stands `ram_block` alone.
#![tactic(auto)]

mod clash;
mod command;
mod fault;
mod form;
mod generator;
mod given;
mod input;
mod job;
mod key;
mod line;
mod number;
mod turns;
mod value;
mod workload;

pub(crate) use command::CommandName;
pub use fault::{UsageKind, WordsFault};
pub use generator::{next_draw, turns_of};
pub use input::Input;
pub use job::{Job, Mode};
pub(crate) use key::{KeyName, Quantity};
pub use line::line_of;
pub use turns::{MAX_TURNS, TurnOf, Turns};
pub use value::value_of;
pub use workload::workload_image;

#[cfg(test)]
mod tests;
