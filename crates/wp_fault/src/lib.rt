//! The queue of pages that stopped vCPUs wait for, linked by page number in an array of fixed length.
//! Each call but `new` does constant work and takes no memory. Below it stands `ram_block` alone.
#![tactic(auto)]

mod fault_queue;

pub use fault_queue::FaultQueue;

#[cfg(test)]
mod tests;
