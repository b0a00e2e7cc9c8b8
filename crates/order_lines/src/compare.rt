use flat_machine::Order;
use ram_block::NoGate;
use std::alloc::{AllocError, Global};
use std::sync::Wait;
use std::test::Fail;
use std::thread::Threads;
use test_lines::{
    Differs, Fails, LINE, Line, Outcome, answer_on_threads, difference, difference_of,
};

/// In what the answer of the call with threads to a line differs from the one that is wanted, if in anything.
pub(crate) fn difference_on_threads<R: Threads + Wait + Sync>(
    rt: &R,
    alloc: Global,
    line: &Line,
) -> Result<Option<Differs>, Fail> {
    Ok(difference_of(&answer_on_threads(rt, alloc, line, &NoGate)?, line))
}

/// In what the replay of what a record wrote differs from the record, if in anything: in its order, or in what it prints.
pub(crate) fn replay_difference(
    alloc: Global,
    words: &[&'static str],
    image: &[u8],
    recorded: &Outcome,
) -> Result<Option<Differs>, Fail> {
    let members = members_of(alloc, &recorded.answer.first)?;
    replay_differs(alloc, words, image, recorded, &members)
}

/// The same where these are the members of its order.
fn replay_differs<'a>(
    alloc: Global,
    words: &'a [&'static str],
    image: &'a [u8],
    recorded: &'a Outcome,
    members: &'a [u8],
) -> Result<Option<Differs>, Fail> {
    let line = Line {
        words,
        image,
        input: recorded.written(),
        output_fails: Fails::From(1),
        printed: recorded.printed(),
        first: members,
        ..LINE
    };
    Ok(difference(alloc, &line)?)
}

/// The members of an order.
fn members_of(alloc: Global, order: &Order) -> Result<Vec<u8>, AllocError> {
    let mut members = Vec::new(alloc);
    for t in 0..order.count() {
        members.push(order.get(t).unwrap_or(u8::MAX))?;
    }
    Ok(members)
}
