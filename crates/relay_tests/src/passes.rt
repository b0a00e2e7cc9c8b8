use crate::ends::{Call, ends_of};
use crate::plants::{STORES, STORES_TWICE, protected_bus, stores_twice};
use bg_saver::Counts;
use page_cell::{Pick, Taken};
use plain_bus::StepAnswer;
use std::alloc::Global;
use std::sync::Wait;
use std::test::Fail;
use write_pipe::{CopyTurn, Discard, Fetch, MAX_ROOM};

/// Two pages through a queue for one: the second page waits in the copier's hand until the first has come out.
const ONE_AT_A_TIME: [Call; 15] = [
    Call::Turn(CopyTurn::Passed(0)),
    Call::Turn(CopyTurn::Full),
    Call::Fetch(Fetch::Got(0)),
    Call::Pick(Pick::Fault(0)),
    Call::Take(0, Taken::Copied),
    Call::Holds(&STORES),
    Call::Turn(CopyTurn::Passed(1)),
    Call::Turn(CopyTurn::Done),
    Call::Fetch(Fetch::Got(1)),
    Call::Pick(Pick::Fault(1)),
    Call::Take(1, Taken::Copied),
    Call::Holds(&[]),
    Call::Fetch(Fetch::Empty),
    Call::Pick(Pick::Busy),
    Call::Discard(Discard::Done),
];

/// Two pages through a queue for more than two. A page that is in hand is picked and taken, whatever else a saver tries.
const ALL_AT_ONCE: [Call; 19] = [
    Call::Pick(Pick::Busy),
    Call::Take(0, Taken::Busy),
    Call::Turn(CopyTurn::Passed(0)),
    Call::Turn(CopyTurn::Passed(1)),
    Call::Turn(CopyTurn::Done),
    Call::Turn(CopyTurn::Done),
    Call::Take(0, Taken::Busy),
    Call::Fetch(Fetch::Got(0)),
    Call::Take(1, Taken::Busy),
    Call::Pick(Pick::Fault(0)),
    Call::Take(0, Taken::Copied),
    Call::Holds(&STORES),
    Call::Take(0, Taken::Stale),
    Call::Fetch(Fetch::Got(1)),
    Call::Pick(Pick::Fault(1)),
    Call::Take(1, Taken::Copied),
    Call::Holds(&[]),
    Call::Fetch(Fetch::Empty),
    Call::Discard(Discard::Done),
];

/// A queue for so many pages, and what is done with two pages at both of its ends.
static ROOMS: [(u32, &[Call]); 2] = [(1, &ONE_AT_A_TIME), (64, &ALL_AT_ONCE)];

#[test]
fn pages_come_out_as_they_went_in_with_their_bytes(rt: HostRuntime) -> Result<(), Fail> {
    let alloc = rt.alloc();
    for &(room, calls) in &ROOMS {
        let mut ends = ends_of(alloc, protected_bus(alloc, 2, &STORES, 2)?, room)?;
        assert_eq!(rt; ends.answered(&rt, calls), calls.len(), "room {room}");
        assert_eq!(rt;
            ends.counts(),
            Counts {
                faults: 0,
                sweep: 2
            }
        );
    }
    Ok(())
}

/// A full queue stays so, and then its first page comes into hand.
static FIRST_OUT: [Call; 2] = [Call::Turn(CopyTurn::Full), Call::Fetch(Fetch::Got(0))];

/// Whether just so many pages wait in the queue, and one more in hand at each of its ends; and whether they come out in order, and
/// the last page goes in with the buffer of one that came out.
fn holds_so_many<R: Wait>(rt: &R, alloc: Global, room: u32) -> Result<bool, Fail> {
    let bus = protected_bus(alloc, u64::from(room) + 3, &STORES, 0)?;
    let mut ends = ends_of(alloc, bus, room)?;
    let (next, last) = (room.saturating_add(1), room.saturating_add(2));
    Ok(
        ends.first_not_passed(rt, 0) == Some((room, CopyTurn::Full))
            && ends.answered(rt, &FIRST_OUT) == 2
            && ends.first_not_passed(rt, room) == Some((next, CopyTurn::Full))
            && ends.answered(rt, &[Call::Take(0, Taken::Copied)]) == 1
            && ends.first_not_come(rt, 1) == Some(next)
            && ends.answered(rt, &[Call::Turn(CopyTurn::Passed(next))]) == 1
            && ends.first_not_come(rt, next) == Some(last)
            && ends.first_not_passed(rt, last).is_none()
            && ends.first_not_come(rt, last).is_none(),
    )
}

#[test]
fn a_queue_holds_as_many_pages_as_its_room_and_each_end_one_more(
    rt: HostRuntime,
) -> Result<(), Fail> {
    assert_eq!(rt; MAX_ROOM, 64);
    for room in [1, 2, MAX_ROOM] {
        assert!(rt; holds_so_many(&rt, rt.alloc(), room)?, "room {room}");
    }
    Ok(())
}

/// A vCPU is stopped on page 2 and then on page 1. Each is copied before the pages that are left, and comes out with its bytes of
/// the instant, also where the vCPU stored there meanwhile.
static WAITED_FOR: [Call; 31] = [
    Call::Step(StepAnswer::Done),
    Call::Step(StepAnswer::Done),
    Call::Step(StepAnswer::Stopped(2)),
    Call::Turn(CopyTurn::Passed(2)),
    Call::Step(StepAnswer::Done),
    Call::Step(StepAnswer::Done),
    Call::Step(StepAnswer::Done),
    Call::Step(StepAnswer::Stopped(1)),
    Call::Step(StepAnswer::Stopped(1)),
    Call::Turn(CopyTurn::Passed(1)),
    Call::Turn(CopyTurn::Passed(0)),
    Call::Step(StepAnswer::Done),
    Call::Step(StepAnswer::Idle),
    Call::Turn(CopyTurn::Passed(3)),
    Call::Turn(CopyTurn::Done),
    Call::Fetch(Fetch::Got(2)),
    Call::Pick(Pick::Fault(2)),
    Call::Take(2, Taken::Copied),
    Call::Holds(&[0xaa]),
    Call::Fetch(Fetch::Got(1)),
    Call::Pick(Pick::Fault(1)),
    Call::Take(1, Taken::Copied),
    Call::Holds(&[]),
    Call::Fetch(Fetch::Got(0)),
    Call::Pick(Pick::Fault(0)),
    Call::Take(0, Taken::Copied),
    Call::Holds(&STORES_TWICE),
    Call::Fetch(Fetch::Got(3)),
    Call::Pick(Pick::Fault(3)),
    Call::Take(3, Taken::Copied),
    Call::Holds(&[]),
];

#[test]
fn a_page_that_a_vcpu_waits_for_goes_first_and_is_counted_as_a_fault(
    rt: HostRuntime,
) -> Result<(), Fail> {
    let alloc = rt.alloc();
    let mut ends = ends_of(
        alloc,
        protected_bus(alloc, 4, &stores_twice(), 4)?,
        MAX_ROOM,
    )?;
    assert_eq!(rt; ends.answered(&rt, &WAITED_FOR), WAITED_FOR.len());
    assert_eq!(rt;
        ends.counts(),
        Counts {
            faults: 2,
            sweep: 2
        }
    );
    Ok(())
}
