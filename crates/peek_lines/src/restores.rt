use snapshot_by_hand::{SMALLEST, Snapshot, file_of};
use std::test::Fail;
use test_lines::{Fails, Line, READER, difference};

/// The guest that stores, auipc x5, 1 and sd x5, 0(x5), in two pages of which the second is all zeros.
const STORES: Snapshot<'static> = Snapshot {
    pages: 2,
    saved: &[(0, &[0x97, 0x12, 0, 0, 0x23, 0xb0, 0x52, 0])],
    ..SMALLEST
};

/// The same guest, with a word of 1 in the second page.
const BOTH_SAVED: Snapshot<'static> = Snapshot {
    saved: &[(0, &[0x97, 0x12, 0, 0, 0x23, 0xb0, 0x52, 0]), (1, &[1])],
    ..STORES
};

const STORED: &str = "touched 2
clock 3
cpu 0 running pc 0000000080000008 steps 2
x5 0000000080001000
serial 0 lost 0
timer 0000000000000000
ram pages 2 nonzero 2 sum 0052b02380002297
";

const BEFORE_THE_STORE: &str = "touched 1
clock 1
cpu 0 running pc 0000000080000004 steps 1
x5 0000000080001000
serial 0 lost 0
timer 0000000000000000
ram pages 2 nonzero 1 sum 0052b02300001297
";

const NOT_RUN: &str = "touched 0
clock 0
cpu 0 running pc 0000000080000000 steps 0
serial 0 lost 0
timer 0000000000000000
ram pages 2 nonzero 1 sum 0052b02300001297
";

/// A lazy restore, its report, and its order.
static RUNS: [(&[&str], &str, &[u8]); 3] = [
    (&["restore", "in=a", "mode=lazy"], NOT_RUN, &[]),
    (
        &["restore", "in=a", "run=1", "mode=lazy"],
        BEFORE_THE_STORE,
        &[0],
    ),
    (
        &["restore", "in=a", "run=2", "mode=lazy"],
        STORED,
        &[0, 0, 0],
    ),
];

#[test]
fn the_pages_touched_stand_before_the_report(rt: HostRuntime) -> Result<(), Fail> {
    let alloc = rt.alloc();
    let file = file_of(alloc, &STORES)?;
    for (words, printed, first) in &RUNS {
        let line = Line {
            words,
            input: &file,
            printed,
            first,
            ..READER
        };
        assert_eq!(rt; difference(alloc, &line)?, None, "{printed}");
    }
    Ok(())
}

/// The call of the file that reads the page of the first event. The next reads the other page, at the store or behind the phase.
const FIRST_TOUCH: u64 = 30;

const ONE: &[&str] = &["restore", "in=a", "run=1", "mode=lazy"];

const TWO: &[&str] = &["restore", "in=a", "run=2", "mode=lazy"];

/// A lazy restore, how many bytes its file has, which call on it fails, the status, the fault's line, and the order.
#[rattlefmt::skip]
static FAULTS: [(&[&str], usize, Fails, u8, &str, &[u8]); 7] = [
    (ONE, 3, Fails::Never, 3, "fault 3 file truncated 0\n", &[]),
    (ONE, 0x10_0fff, Fails::Never, 3, "fault 3 file truncated 1048576\n", &[]),
    (ONE, 0x10_1fff, Fails::Never, 3, "fault 3 file truncated 1052672\n", &[]),
    (ONE, usize::MAX, Fails::At(1), 4, "fault 4 file-fault\n", &[]),
    (ONE, usize::MAX, Fails::At(FIRST_TOUCH), 4, "fault 4 file-fault\n", &[]),
    (TWO, usize::MAX, Fails::At(FIRST_TOUCH + 1), 4, "fault 4 file-fault\n", &[]),
    (ONE, usize::MAX, Fails::At(FIRST_TOUCH + 1), 4, "fault 4 file-fault\n", &[0]),
];

#[test]
fn a_page_that_fails_behind_the_phase_leaves_its_order(rt: HostRuntime) -> Result<(), Fail> {
    let alloc = rt.alloc();
    let whole = file_of(alloc, &BOTH_SAVED)?;
    for (words, len, fails, status, printed, first) in &FAULTS {
        let line = Line {
            words,
            input: whole.get(..*len).unwrap_or(&whole),
            input_fails: *fails,
            status: *status,
            printed,
            first,
            ..READER
        };
        assert_eq!(rt; difference(alloc, &line)?, None, "{printed}");
    }
    Ok(())
}
