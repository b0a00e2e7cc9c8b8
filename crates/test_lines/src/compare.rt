use crate::files::Outcome;
use crate::line::{Line, READER, answer};
use crate::orders::is_order;
use ram_block::NoMemory;
use std::alloc::Global;

/// The first thing in which an answer differs from the one that is wanted.
#[derive(Clone, Copy, Debug, PartialEq, Eq)]
pub enum Differs {
    Status,
    Fault,
    Printed,
    First,
    Second,
    /// The bytes of the output, or that they are synced.
    Written,
}

/// In what the answer to a line differs from the one that is wanted, if in anything.
pub fn difference(alloc: Global, line: &Line) -> Result<Option<Differs>, NoMemory> {
    let done = answer(alloc, line)?;
    Ok(difference_of(&done, line))
}

/// Whether a check of a file has this status and this line.
pub fn is_checked<'a>(
    alloc: Global,
    file: &'a [u8],
    status: u8,
    printed: &'a str,
) -> Result<bool, NoMemory> {
    let line = Line {
        words: &["check", "in=a"],
        input: file,
        status,
        printed,
        ..READER
    };
    Ok(difference(alloc, &line)?.is_none())
}

/// In what an outcome differs from the one that a line wants, if in anything.
pub fn difference_of(done: &Outcome, line: &Line) -> Option<Differs> {
    let differs = answer_difference(done, line);
    if differs.is_none() && has_other_bytes(done, line) {
        Some(Differs::Written)
    } else {
        differs
    }
}

/// The same, but for the bytes of the output.
pub fn answer_difference(done: &Outcome, line: &Line) -> Option<Differs> {
    if done.answer.status != line.status {
        Some(Differs::Status)
    } else if has_other_fault(done, line) {
        Some(Differs::Fault)
    } else if done.printed() != line.printed {
        Some(Differs::Printed)
    } else if !is_order(&done.answer.first, line.first) {
        Some(Differs::First)
    } else if !is_order(&done.answer.second, line.second) {
        Some(Differs::Second)
    } else {
        None
    }
}

/// A fault goes with a status other than 0, and is the line's where that names one.
fn has_other_fault(done: &Outcome, line: &Line) -> bool {
    done.answer.fault.is_some() != (line.status != 0)
        || line.fault.is_some() && done.answer.fault != line.fault
}

/// What a job wrote is synced where the job ended well.
fn has_other_bytes(done: &Outcome, line: &Line) -> bool {
    done.written() != line.written || line.status == 0 && done.files.output.unsynced() != 0
}
