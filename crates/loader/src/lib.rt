//! Reads a snapshot file back: a machine, or the first piece of the file that is wrong. It stands on `file_plan`, which
//! says which file stands for a machine, on `device_state`, `mig_stream`, `mapped_ram_header` and `page_bitmap`, which
//! read its pieces, and on `medium`, `flat_machine` and `ram_block`.
#![tactic(auto)]

mod block;
mod file_frame;
mod framing;
mod front;
mod laws;
mod load_file;
mod pages;
mod piece;
mod ram;
mod refusal;
mod tail;

pub use file_frame::Frame;
pub use framing::frame;
pub use laws::a_file_is_loaded_or_refused;
pub use load_file::load;
pub use refusal::{LoadFault, Refusal};

#[cfg(test)]
mod tests;
