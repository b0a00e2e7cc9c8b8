use snapshot_by_hand::{AT_BOOT, SMALLEST, Snapshot, file_of};
use std::alloc::Global;
use std::test::Fail;
use test_lines::{Fails, Line, READER, answer, difference, is_order};

/// The line of the fault, which is written in two calls.
const LINE: &str = "fault 5 console-fault\n";

/// How many calls write the report of two vCPUs and a row of serial bytes: the clock, each vCPU, the serial device, its
/// row, and the timer with RAM.
const WRITES: u64 = 6;

/// A machine of two vCPUs with a row of serial bytes.
const OF_TWO: Snapshot<'static> = Snapshot {
    cpus: &[AT_BOOT; 2],
    serial: b"A",
    ..SMALLEST
};

const REPORT: &str = "clock 2
cpu 0 running pc 0000000080000004 steps 1
x5 0000000000000001
cpu 1 running pc 0000000080000004 steps 1
x5 0000000000000001
serial 1 lost 0
41
timer 0000000000000000
ram pages 1 nonzero 1 sum 0000007300100293
";

/// A restore over a console.
fn restore(file: &[u8], console_fails: Fails) -> Line<'_> {
    Line {
        words: &["restore", "in=a", "run=1"],
        input: file,
        console_fails,
        printed: REPORT,
        first: &[0, 1],
        ..READER
    }
}

/// How many bytes of the report were printed in front of a line, where the console fails and all else is as it has to be.
fn front_of(alloc: Global, line: &Line, behind: &str) -> Result<Option<usize>, Fail> {
    let done = answer(alloc, line)?;
    if done.answer.status != 5 || !is_order(&done.answer.first, line.first) {
        return Ok(None);
    }
    Ok(
        done.printed()
            .strip_suffix(behind)
            .filter(|front| REPORT.starts_with(front))
            .map(str::len),
    )
}

#[test]
fn a_failed_write_ends_the_report(rt: HostRuntime) -> Result<(), Fail> {
    let alloc = rt.alloc();
    let file = file_of(alloc, &OF_TWO)?;
    let mut last = None;
    for call in 1..=WRITES {
        let front = front_of(alloc, &restore(&file, Fails::At(call)), LINE)?;
        assert!(rt; front > last, "call {call}");
        last = front;
    }
    let line = restore(&file, Fails::At(WRITES + 1));
    assert_eq!(rt; difference(alloc, &line)?, None);
    Ok(())
}

#[test]
fn a_console_that_goes_on_failing_gets_no_line(rt: HostRuntime) -> Result<(), Fail> {
    let alloc = rt.alloc();
    let file = file_of(alloc, &OF_TWO)?;
    let mut last = None;
    for call in 1..=WRITES {
        let front = front_of(alloc, &restore(&file, Fails::From(call)), "")?;
        assert!(rt; front > last && front < Some(REPORT.len()), "call {call}");
        last = front;
    }
    Ok(())
}

#[test]
fn a_checked_file_whose_line_fails_has_status_5(rt: HostRuntime) -> Result<(), Fail> {
    let alloc = rt.alloc();
    let file = file_of(alloc, &SMALLEST)?;
    for (console_fails, printed) in [(Fails::At(1), LINE), (Fails::From(1), "")] {
        let line = Line {
            words: &["check", "in=a"],
            input: &file,
            console_fails,
            status: 5,
            printed,
            ..READER
        };
        assert_eq!(rt; difference(alloc, &line)?, None);
    }
    Ok(())
}
