//! Where a block's pieces stand in the file, and the 28 bytes that say so. It stands on `ram_block`.
#![tactic(auto)]

mod block;
mod fault;
mod header;
mod place;

pub use block::Places;
pub use fault::HeaderFault;
pub use header::{HEADER_LEN, HEADER_VERSION, get_header, put_header};
pub use place::{PAGES_ALIGN, places};

#[cfg(test)]
mod tests;
