//! One bit per page of a block, and the bytes in which they stand in a file.
//! Below it stands `ram_block` alone.
#![tactic(auto)]

mod bitmap;

pub use bitmap::Bitmap;

#[cfg(test)]
mod tests;
