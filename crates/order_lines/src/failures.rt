use crate::compare::difference_on_threads;
use crate::guests::STORES;
use crate::records::STORED;
use image_file::ImageRefusal;
use ram_block::NoGate;
use std::alloc::Global;
use std::sync::Wait;
use std::test::Fail;
use std::thread::Threads;
use test_lines::{Fails, LINE, Line, answer_on_threads, difference, is_order};
use vm_cli::Fault;

/// The order 0 0 0 of one vCPU.
const ORDER: [u8; 22] = *b"RVOR\0\0\0\x01\0\0\0\x01\0\0\0\0\0\0\0\x03\x00\x00";

/// A record that ends well, and reads its image in two calls.
const RECORD: Line<'static> = Line {
    words: &["record", "image=a", "out=b", "pages=2", "run=2"],
    image: &STORES,
    image_fails: Fails::From(3),
    input_fails: Fails::From(1),
    printed: STORED,
    first: &[0, 0, 0],
    written: &ORDER,
    ..LINE
};

/// A replay that ends well, and reads its image in two calls.
const REPLAY: Line<'static> = Line {
    words: &["replay", "image=a", "in=b", "pages=2"],
    image: &STORES,
    image_fails: Fails::From(3),
    input: &ORDER,
    output_fails: Fails::From(1),
    printed: STORED,
    first: &[0, 0, 0],
    ..LINE
};

/// An image that can't be booted, the calls on it that fail, the status, the fault, and what is printed.
#[rattlefmt::skip]
static IMAGES: [(&[u8], Fails, u8, Fault, &str); 3] = [
    (&STORES, Fails::At(1), 6, Fault::ImageFault, "fault 6 image-fault\n"),
    (&STORES, Fails::At(2), 6, Fault::ImageFault, "fault 6 image-fault\n"),
    (&[], Fails::Never, 2, Fault::ImageRefused(ImageRefusal::Empty), "fault 2 image empty\n"),
];

#[test]
fn a_fault_of_the_image_comes_before_every_other_file(rt: HostRuntime) -> Result<(), Fail> {
    for words in [RECORD.words, REPLAY.words] {
        for &(image, image_fails, status, fault, printed) in &IMAGES {
            let line = Line {
                words,
                image,
                image_fails,
                input_fails: Fails::From(1),
                output_fails: Fails::From(1),
                status,
                fault: Some(fault),
                printed,
                ..LINE
            };
            let found = difference_on_threads(&rt, rt.alloc(), &line)?;
            assert_eq!(rt; found, None, "{printed}");
        }
    }
    Ok(())
}

/// How many calls read an order: one for each of the four fields, for the members, and for the length.
const READS: u64 = 6;

#[test]
fn a_read_of_the_order_that_fails_is_no_refusal(rt: HostRuntime) -> Result<(), Fail> {
    let alloc = rt.alloc();
    for call in 1..=READS {
        let line = Line {
            input_fails: Fails::At(call),
            status: 4,
            fault: Some(Fault::FileFault),
            printed: "fault 4 file-fault\n",
            first: &[],
            ..REPLAY
        };
        assert_eq!(rt; difference(alloc, &line)?, None, "call {call}");
    }
    let line = Line {
        input_fails: Fails::From(READS + 1),
        ..REPLAY
    };
    assert_eq!(rt; difference(alloc, &line)?, None);
    Ok(())
}

/// A call on the output that fails, and the bytes that the output has then: none until the whole order is written.
static CALLS: [(u64, &[u8]); 3] = [(1, &[]), (2, &[]), (3, &ORDER)];

#[test]
fn a_call_on_the_output_that_fails_leaves_the_order_in_the_answer(
    rt: HostRuntime,
) -> Result<(), Fail> {
    let alloc = rt.alloc();
    for &(call, written) in &CALLS {
        let line = Line {
            output_fails: Fails::At(call),
            status: 4,
            fault: Some(Fault::FileFault),
            printed: "fault 4 file-fault\n",
            written,
            ..RECORD
        };
        let found = difference_on_threads(&rt, alloc, &line)?;
        assert_eq!(rt; found, None, "call {call}");
    }
    let line = Line {
        output_fails: Fails::From(4),
        ..RECORD
    };
    assert_eq!(rt; difference_on_threads(&rt, alloc, &line)?, None);
    Ok(())
}

/// A record whose output has a byte already.
const FULL: Line<'static> = Line {
    output: b"x",
    output_fails: Fails::From(2),
    status: 8,
    fault: Some(Fault::NotEmpty { len: 1 }),
    printed: "fault 8 not-empty 1\n",
    written: b"x",
    ..RECORD
};

#[test]
fn an_output_that_has_bytes_keeps_them_and_the_order_is_told(rt: HostRuntime) -> Result<(), Fail> {
    assert_eq!(rt; difference_on_threads(&rt, rt.alloc(), &FULL)?, None);
    Ok(())
}

/// How many calls write the report of one vCPU and no serial byte.
const WRITES: u64 = 4;

/// How many bytes of the report were printed in front of the line of the fault, where the console fails and all else is as where
/// the line ends well.
fn front_of<R: Threads + Wait + Sync>(
    rt: &R,
    alloc: Global,
    line: &Line,
) -> Result<Option<usize>, Fail> {
    let done = answer_on_threads(rt, alloc, line, &NoGate)?;
    if done.answer.status != 5
        || !is_order(&done.answer.first, line.first)
        || done.written() != line.written
        || done.files.output.unsynced() != 0
    {
        return Ok(None);
    }
    Ok(
        done.printed()
            .strip_suffix("fault 5 console-fault\n")
            .filter(|front| line.printed.starts_with(front))
            .map(str::len),
    )
}

#[test]
fn a_console_that_fails_leaves_the_order_and_its_file_whole(rt: HostRuntime) -> Result<(), Fail> {
    let alloc = rt.alloc();
    for whole in [RECORD, REPLAY] {
        let mut last = None;
        for call in 1..=WRITES {
            let line = Line {
                console_fails: Fails::At(call),
                ..whole
            };
            let front = front_of(&rt, alloc, &line)?;
            assert!(rt; front > last && front < Some(STORED.len()), "call {call}");
            last = front;
        }
        let line = Line {
            console_fails: Fails::From(WRITES + 1),
            ..whole
        };
        assert_eq!(rt; difference_on_threads(&rt, alloc, &line)?, None);
    }
    Ok(())
}

#[test]
fn a_console_that_goes_on_failing_changes_no_status(rt: HostRuntime) -> Result<(), Fail> {
    let alloc = rt.alloc();
    let cut = Line {
        input: ORDER.get(..21).unwrap_or(&[]),
        first: &[],
        ..REPLAY
    };
    for (whole, status) in [(RECORD, 5), (REPLAY, 5), (FULL, 8), (cut, 12)] {
        let line = Line {
            console_fails: Fails::From(1),
            status,
            printed: "",
            ..whole
        };
        assert_eq!(rt; difference_on_threads(&rt, alloc, &line)?, None);
    }
    Ok(())
}
