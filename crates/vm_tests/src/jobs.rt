use ram_block::Gate;
use std::alloc::Global;
use std::process::Abort;
use std::sync::Wait;
use std::test::Fail;
use std::thread::Threads;
use test_lines::{Differs, Line, answer_on_threads, difference_of};

/// A gate that nobody may call.
#[derive(Drop)]
struct ClosedGate<'a, R> {
    rt: &'a R,
}

impl<R: Abort + Sync> Gate for ClosedGate<'_, R> {
    fn before_turn(&self, n: u32) {
        assert_eq!(self.rt; n, 0, "a line without threads calls its gate");
    }

    fn done(&self, k: u32) {
        assert_eq!(self.rt; k, 8, "a line without threads calls its gate");
    }
}

/// In what the answer of the call with threads to a line differs from the one that is wanted, if in anything. It calls no gate.
pub(crate) fn difference_in_threads<R: Abort + Threads + Wait + Sync>(
    rt: &R,
    alloc: Global,
    line: &Line,
) -> Result<Option<Differs>, Fail> {
    let done = answer_on_threads(rt, alloc, line, &ClosedGate { rt })?;
    Ok(difference_of(&done, line))
}
