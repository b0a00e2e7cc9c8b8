//! The report of a machine as text: how its save went, its clock, vCPUs, serial device, timer and RAM, a line each;
//! and the line of a checked file. Each call writes exactly the text that `specs/Report` defines to its sink, or fails
//! behind a front of that text; it takes no memory. Below it stand `bg_saver`, how a save ended, `flat_machine`, the
//! machine, with `rv64i_step` and `serial_timer` for its parts, `medium`, the outside, and `ram_block`.
#![tactic(auto)]

mod lines;
mod ok_line;
mod ram;
mod report;
mod save_line;
mod serial;
mod text;
mod vcpus;

pub use ok_line::put_ok;
pub use report::put_report;
pub use save_line::SaveLine;
pub use serial::put_rows;

#[cfg(test)]
mod tests;
