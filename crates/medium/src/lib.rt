//! The outside world as the machine sees it: files that are read and written in place, inputs and outputs.
//! Each trait says what a call does to the bytes, to the counts of faults and of syncs, and to what a crash
//! may leave. The implementations in memory tell their bytes, and their calls fail by plan. It stands on
//! `ram_block` alone.
#![tactic(auto)]

mod call_count;
mod fail_plan;
mod failed;
mod mem_bytes;
mod mem_medium;
mod mem_sink;
mod mem_source;
mod readable;
mod sink;
mod source;
mod writable;
mod write_log;

pub use fail_plan::FailPlan;
pub use failed::Failed;
pub use mem_bytes::MemBytes;
pub use mem_medium::MemMedium;
pub use mem_sink::MemSink;
pub use mem_source::MemSource;
pub use readable::Readable;
pub use sink::Sink;
pub use source::Source;
pub use writable::Medium;

#[cfg(test)]
mod tests;
