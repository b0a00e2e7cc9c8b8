use crate::compare::{difference_on_threads, replay_difference};
use crate::guests::{COUNTS, HALTS, LISTENS, STORES};
use ram_block::NoGate;
use std::alloc::Global;
use std::sync::Wait;
use std::test::Fail;
use std::thread::Threads;
use test_lines::{ADDED, ADDS, Fails, LINE, Line, answer_on_threads, difference};

const BOOTED: &str = "clock 0
cpu 0 running pc 0000000080000000 steps 0
serial 0 lost 0
timer 0000000000000000
ram pages 256 nonzero 1 sum 0052b02300001297
";

const HALTED: &str = "clock 1
cpu 0 ebreak pc 0000000080000000 steps 0
serial 0 lost 0
timer 0000000000000000
ram pages 1 nonzero 1 sum 0000000000100073
";

/// The report of the guest that stores.
pub(crate) const STORED: &str = "clock 3
cpu 0 running pc 0000000080000008 steps 2
x5 0000000080001000
serial 0 lost 0
timer 0000000000000000
ram pages 2 nonzero 2 sum 0052b02380002297
";

const COUNTED: &str = "clock 4
cpu 0 running pc 0000000080000000 steps 4
x5 0000000000000002
serial 0 lost 0
timer 0000000000000000
ram pages 1 nonzero 1 sum ffdff06f00128293
";

const HEARD: &str = "clock 7
cpu 0 running pc 0000000080000010 steps 4
x5 0000000010000000
x6 0000000000000041
x7 0000000000000062
x8 0000000000000020
serial 0 lost 0
timer 0000000000000000
ram pages 1 nonzero 1 sum 005587061002c63a
";

/// A record of one vCPU, whose order is the same on every run: its words, those of its replay, the image, the members of the
/// order, their file, and what is printed.
#[rattlefmt::skip]
static RECORDS: [(&[&str], &[&str], &[u8], &[u8], &[u8], &str); 5] = [
    (
        &["record", "image=a", "out=b"], &["replay", "image=a", "in=b"],
        &STORES, &[], b"RVOR\0\0\0\x01\0\0\0\x01\0\0\0\0\0\0\0\x00", BOOTED,
    ),
    (
        &["record", "image=a", "out=b", "pages=1", "run=9"], &["replay", "image=a", "in=b", "pages=1"],
        &HALTS, &[0], b"RVOR\0\0\0\x01\0\0\0\x01\0\0\0\0\0\0\0\x01\x00", HALTED,
    ),
    (
        &["record", "image=a", "out=b", "pages=2", "run=2"], &["replay", "image=a", "in=b", "pages=2"],
        &STORES, &[0; 3], b"RVOR\0\0\0\x01\0\0\0\x01\0\0\0\0\0\0\0\x03\x00\x00", STORED,
    ),
    (
        &["record", "image=a", "out=b", "pages=1", "run=4"], &["replay", "image=a", "in=b", "pages=1"],
        &COUNTS, &[0; 4], b"RVOR\0\0\0\x01\0\0\0\x01\0\0\0\0\0\0\0\x04\x00\x00", COUNTED,
    ),
    (
        &["record", "image=a", "out=b", "pages=1", "run=4", "serial=Ab"], &["replay", "image=a", "in=b", "pages=1", "serial=Ab"],
        &LISTENS, &[0; 7], b"RVOR\0\0\0\x01\0\0\0\x01\0\0\0\0\0\0\0\x07\x00\x00\x00\x00", HEARD,
    ),
];

#[test]
fn a_record_writes_the_order_of_its_events(rt: HostRuntime) -> Result<(), Fail> {
    for &(words, _, image, first, written, printed) in &RECORDS {
        let line = Line {
            words,
            image,
            input_fails: Fails::From(1),
            printed,
            first,
            written,
            ..LINE
        };
        let found = difference_on_threads(&rt, rt.alloc(), &line)?;
        assert_eq!(rt; found, None, "{printed}");
    }
    Ok(())
}

#[test]
fn a_replay_prints_the_report_of_its_record(rt: HostRuntime) -> Result<(), Fail> {
    for &(_, words, image, first, input, printed) in &RECORDS {
        let line = Line {
            words,
            image,
            input,
            output_fails: Fails::From(1),
            printed,
            first,
            ..LINE
        };
        assert_eq!(rt; difference(rt.alloc(), &line)?, None, "{printed}");
        let found = difference_on_threads(&rt, rt.alloc(), &line)?;
        assert_eq!(rt; found, None, "{printed}");
    }
    Ok(())
}

#[rattlefmt::skip]
const RECORD_ADDING: [&str; 6] = ["record", "image=a", "out=b", "vcpus=2", "blocks=2", "run=60000"];

const REPLAY_ADDING: [&str; 5] = ["replay", "image=a", "in=b", "vcpus=2", "blocks=2"];

/// Whether a record of the guest that adds ends as it has to, each event has its place in the file, and the replay of that
/// file is the same run.
fn replays_adding<R: Threads + Wait + Sync>(rt: &R, alloc: Global) -> Result<bool, Fail> {
    let line = Line {
        words: &RECORD_ADDING,
        image: &ADDS,
        ..LINE
    };
    let done = answer_on_threads(rt, alloc, &line, &NoGate)?;
    Ok(
        done.answer.status == 0
            && done.printed() == ADDED
            && done.answer.first.count() == 179_998
            && done.written().len() == 90_019
            && replay_difference(alloc, &REPLAY_ADDING, &ADDS, &done)?.is_none(),
    )
}

#[test]
fn a_long_run_of_two_vcpus_is_replayed_to_the_same_report(rt: HostRuntime) -> Result<(), Fail> {
    assert!(rt; replays_adding(&rt, rt.alloc())?);
    Ok(())
}
