use crate::steps::{STORED, by_hand, join, make};
use std::alloc::Global;
use std::test::Fail;
use test_lines::{Fails, Line, answer, answer_difference, difference, difference_of, is_checked};

const FAULT: &str = "fault 4 file-fault\n";

/// Whether a line ends as it has to.
fn ends_so(alloc: Global, line: &Line) -> Result<bool, Fail> {
    Ok(difference(alloc, line)?.is_none())
}

/// The first call on its input that a line doesn't make before it looks at its output, which has a byte, where each before is
/// its fault.
fn call_behind_input(alloc: Global, line: &Line) -> Result<Option<u64>, Fail> {
    for call in 1..100 {
        let ended = Line {
            input_fails: Fails::At(call),
            output: b"x",
            status: 8,
            printed: "fault 8 not-empty 1\n",
            written: b"x",
            ..*line
        };
        let failed = Line {
            status: 4,
            printed: FAULT,
            first: &[],
            ..ended
        };
        if !ends_so(alloc, &failed)? {
            return Ok(ends_so(alloc, &ended)?.then_some(call));
        }
    }
    Ok(None)
}

#[test]
fn each_call_on_the_input_may_fail_and_leaves_the_output(rt: HostRuntime) -> Result<(), Fail> {
    let alloc = rt.alloc();
    let bytes = by_hand(alloc, &STORED)?;
    for line in [make(&STORED, &bytes), join(&STORED, &bytes)] {
        assert!(rt; call_behind_input(alloc, &line)? > Some(20));
    }
    Ok(())
}

/// A call on the output of a layer from which on all fail, the status, what is printed, and whether the layer is then written.
#[rattlefmt::skip]
static LAYER_CALLS: [(u64, u8, &str, bool); 4] = [
    (1, 4, FAULT, false),
    (2, 4, FAULT, false),
    (3, 4, FAULT, true),
    (4, 0, "layer pages 1\n", true),
];

#[test]
fn each_call_on_the_output_of_a_layer_may_fail(rt: HostRuntime) -> Result<(), Fail> {
    let alloc = rt.alloc();
    let bytes = by_hand(alloc, &STORED)?;
    for (call, status, printed, is_written) in &LAYER_CALLS {
        for output_fails in [Fails::At(*call), Fails::From(*call)] {
            let line = Line {
                output_fails,
                status: *status,
                printed,
                written: if *is_written { &bytes.layer } else { &[] },
                ..make(&STORED, &bytes)
            };
            assert!(rt; ends_so(alloc, &line)?, "call {call}");
        }
    }
    Ok(())
}

/// A call on the output of a join, and how the file is checked where it fails: the status, and the line.
#[rattlefmt::skip]
static JOIN_CALLS: [(u64, u8, &str); 10] = [
    (1, 3, "fault 3 file truncated 0\n"),
    (2, 3, "fault 3 file truncated 0\n"),
    (3, 3, "fault 3 file truncated 0\n"),
    (4, 3, "fault 3 file truncated 0\n"),
    (5, 3, "fault 3 file magic 0\n"),
    (6, 3, "fault 3 file magic 0\n"),
    (7, 3, "fault 3 file magic 4544077\n"),
    (8, 3, "fault 3 file magic 4544077\n"),
    (9, 3, "fault 3 file magic 4544077\n"),
    (10, 0, "ok vcpus 1 blocks 1 pages 2\n"),
];

/// Whether a line of `join` ends as it has to, and a check of the file that it leaves with this status and this line.
fn leaves(alloc: Global, line: &Line, status: u8, printed: &'static str) -> Result<bool, Fail> {
    let done = answer(alloc, line)?;
    let is_left = is_checked(alloc, done.written(), status, printed)?;
    Ok(is_left && answer_difference(&done, line).is_none())
}

#[test]
fn each_call_on_the_output_of_a_join_may_fail(rt: HostRuntime) -> Result<(), Fail> {
    let alloc = rt.alloc();
    let bytes = by_hand(alloc, &STORED)?;
    for (call, status, printed) in &JOIN_CALLS {
        for output_fails in [Fails::At(*call), Fails::From(*call)] {
            let line = Line {
                output_fails,
                status: 4,
                printed: FAULT,
                ..join(&STORED, &bytes)
            };
            assert!(rt; leaves(alloc, &line, *status, printed)?, "call {call}");
        }
    }
    let line = Line {
        output_fails: Fails::From(11),
        ..join(&STORED, &bytes)
    };
    assert!(rt; ends_so(alloc, &line)?);
    Ok(())
}

#[test]
fn an_image_that_fails_ends_a_join_before_its_input(rt: HostRuntime) -> Result<(), Fail> {
    let alloc = rt.alloc();
    let bytes = by_hand(alloc, &STORED)?;
    for call in 1..=2 {
        let line = Line {
            image_fails: Fails::At(call),
            input_fails: Fails::From(1),
            output_fails: Fails::From(1),
            status: 6,
            printed: "fault 6 image-fault\n",
            written: &[],
            ..join(&STORED, &bytes)
        };
        assert!(rt; ends_so(alloc, &line)?, "call {call}");
    }
    Ok(())
}

/// Which call on the console fails, and what is printed.
static CONSOLES: [(Fails, &str); 2] = [
    (Fails::At(1), "fault 5 console-fault\n"),
    (Fails::From(1), ""),
];

/// Whether a line ends as it has to, and what it wrote is synced.
fn is_synced(alloc: Global, line: &Line) -> Result<bool, Fail> {
    let done = answer(alloc, line)?;
    Ok(done.files.output.unsynced() == 0 && difference_of(&done, line).is_none())
}

#[test]
fn a_console_that_fails_leaves_what_was_written(rt: HostRuntime) -> Result<(), Fail> {
    let alloc = rt.alloc();
    let bytes = by_hand(alloc, &STORED)?;
    for (console_fails, printed) in &CONSOLES {
        for line in [make(&STORED, &bytes), join(&STORED, &bytes)] {
            let line = Line {
                console_fails: *console_fails,
                status: 5,
                printed,
                ..line
            };
            assert!(rt; is_synced(alloc, &line)?, "{printed}");
        }
    }
    Ok(())
}
