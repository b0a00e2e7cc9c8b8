//! The pages that the saver has left, linked both ways by page number in arrays of fixed length.
//! Each call but `full` does constant work and takes no memory. Below it stands `ram_block` alone.
#![tactic(auto)]

mod sweep;

pub use sweep::Sweep;

#[cfg(test)]
mod tests;
