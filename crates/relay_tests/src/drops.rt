use crate::ends::{Call, ends_of};
use crate::plants::{STORES, are_writable, protected_bus};
use bg_saver::Counts;
use page_cell::{Pick, Taken};
use plain_bus::StepAnswer;
use std::alloc::Global;
use std::sync::Wait;
use std::test::Fail;
use write_pipe::{CopyTurn, Discard, Fetch};

/// Six pages through a queue for two, each of them dropped. There are four buffers, so those of dropped pages are filled again.
const FULL_AT_FIRST: [Call; 21] = [
    Call::Turn(CopyTurn::Passed(0)),
    Call::Turn(CopyTurn::Passed(1)),
    Call::Turn(CopyTurn::Full),
    Call::Discard(Discard::Took(0)),
    Call::Discard(Discard::Took(1)),
    Call::Discard(Discard::Again),
    Call::Turn(CopyTurn::Passed(2)),
    Call::Turn(CopyTurn::Passed(3)),
    Call::Turn(CopyTurn::Full),
    Call::Discard(Discard::Took(2)),
    Call::Discard(Discard::Took(3)),
    Call::Discard(Discard::Again),
    Call::Turn(CopyTurn::Passed(4)),
    Call::Turn(CopyTurn::Passed(5)),
    Call::Turn(CopyTurn::Done),
    Call::Discard(Discard::Took(4)),
    Call::Discard(Discard::Took(5)),
    Call::Discard(Discard::Done),
    Call::Discard(Discard::Done),
    Call::Take(0, Taken::Busy),
    Call::Take(5, Taken::Busy),
];

/// Six pages through a queue for one. The page that a vCPU waits for is taken before the first one is dropped, another is dropped
/// out of hand, and each other one out of the queue. All of the three buffers are filled twice.
const TAKEN_AT_FIRST: [Call; 28] = [
    Call::Step(StepAnswer::Done),
    Call::Step(StepAnswer::Done),
    Call::Step(StepAnswer::Stopped(1)),
    Call::Turn(CopyTurn::Passed(1)),
    Call::Turn(CopyTurn::Full),
    Call::Fetch(Fetch::Got(1)),
    Call::Pick(Pick::Fault(1)),
    Call::Take(1, Taken::Copied),
    Call::Turn(CopyTurn::Passed(0)),
    Call::Discard(Discard::Took(0)),
    Call::Discard(Discard::Again),
    Call::Turn(CopyTurn::Passed(2)),
    Call::Turn(CopyTurn::Full),
    Call::Fetch(Fetch::Got(2)),
    Call::Turn(CopyTurn::Passed(3)),
    Call::Turn(CopyTurn::Full),
    Call::Discard(Discard::Took(2)),
    Call::Discard(Discard::Took(3)),
    Call::Discard(Discard::Again),
    Call::Turn(CopyTurn::Passed(4)),
    Call::Turn(CopyTurn::Full),
    Call::Discard(Discard::Took(4)),
    Call::Turn(CopyTurn::Passed(5)),
    Call::Turn(CopyTurn::Done),
    Call::Discard(Discard::Took(5)),
    Call::Discard(Discard::Done),
    Call::Step(StepAnswer::Done),
    Call::Step(StepAnswer::Idle),
];

/// How many pages the queue holds, what is done at its ends, and what the copier has counted then.
#[rattlefmt::skip]
static SAVES: [(u32, &[Call], Counts); 2] = [
    (2, &FULL_AT_FIRST, Counts { faults: 0, sweep: 6 }),
    (1, &TAKEN_AT_FIRST, Counts { faults: 1, sweep: 5 }),
];

/// Whether all of the calls on a bus of six pages and on the ends of its relay answer as they are to, the copier has counted so,
/// and every page of the bus is writable.
fn leaves_all_writable<R: Wait>(
    rt: &R,
    alloc: Global,
    room: u32,
    calls: &[Call],
    counts: Counts,
) -> Result<bool, Fail> {
    let mut ends = ends_of(alloc, protected_bus(alloc, 6, &STORES, 2)?, room)?;
    if ends.answered(rt, calls) != calls.len() || ends.counts() != counts {
        return Ok(false);
    }
    let (mut bus, mut into) = ends.into_parts();
    Ok(are_writable(&mut bus, &mut into))
}

#[test]
fn the_pages_of_a_failed_save_are_dropped_and_every_page_is_writable(
    rt: HostRuntime,
) -> Result<(), Fail> {
    for &(room, calls, counts) in &SAVES {
        let is_left = leaves_all_writable(&rt, rt.alloc(), room, calls, counts)?;
        assert!(rt; is_left, "room {room}");
    }
    Ok(())
}
