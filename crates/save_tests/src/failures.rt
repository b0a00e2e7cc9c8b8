use crate::phases::{STORES, STORES_AT_BOOT};
use crate::row::checked;
use snapshot_by_hand::file_of;
use std::alloc::Global;
use std::test::Fail;
use test_lines::{Fails, LINE, Line, answer, answer_difference, difference, is_order};
use vm_cli::Fault;

const WORDS: [&str; 6] = [
    "save",
    "image=a",
    "out=b",
    "pages=2",
    "run=2",
    "turns=000s0",
];

const STORED: &str = "clock 3
cpu 0 running pc 0000000080000008 steps 2
x5 0000000080001000
serial 0 lost 0
timer 0000000000000000
ram pages 2 nonzero 2 sum 0052b02380002297
";

const FAULT: &str = "fault 4 file-fault\n";

/// A call on the file that fails alone: what is printed before the machine that ran on, if it did, and how the file is checked.
#[rattlefmt::skip]
static CALLS: [(u64, &str, u8, &str); 9] = [
    (1, "", 3, "fault 3 file truncated 0\n"),
    (2, "", 3, "fault 3 file truncated 0\n"),
    (3, "", 3, "fault 3 file truncated 0\n"),
    (4, "save failed blocked 1 faults 1 sweep 0\n", 3, "fault 3 file truncated 0\n"),
    (5, "save failed blocked 1 faults 1 sweep 1\n", 3, "fault 3 file magic 0\n"),
    (6, "save failed blocked 1 faults 1 sweep 1\n", 3, "fault 3 file magic 4544077\n"),
    (7, "save failed blocked 1 faults 1 sweep 1\n", 3, "fault 3 file magic 4544077\n"),
    (8, "save failed blocked 1 faults 1 sweep 1\n", 3, "fault 3 file magic 4544077\n"),
    (9, "save failed blocked 1 faults 1 sweep 1\n", 0, "ok vcpus 1 blocks 1 pages 2\n"),
];

/// Whether a save ends as its line has to, and a check of its file with this status and this line.
fn fails_so(alloc: Global, line: &Line, status: u8, check: &str) -> Result<bool, Fail> {
    let done = answer(alloc, line)?;
    Ok(
        answer_difference(&done, line).is_none()
            && checked(alloc, done.written(), status, check)?.is_none(),
    )
}

/// A save that ends with a fault of its file.
const FAILS: Line<'static> = Line {
    words: &WORDS,
    image: &STORES,
    status: 4,
    fault: Some(Fault::FileFault),
    ..LINE
};

#[test]
fn where_a_call_on_the_file_fails_the_guest_still_runs_to_its_end(
    rt: HostRuntime,
) -> Result<(), Fail> {
    let alloc = rt.alloc();
    for &(call, line, status, check) in &CALLS {
        let ran = !line.is_empty();
        let report = if ran { STORED } else { "" };
        let text = format!(in alloc; "{line}{report}{FAULT}")?;
        let line = Line {
            output_fails: Fails::At(call),
            printed: &text,
            second: if ran { &[0, 0, 0] } else { &[] },
            ..FAILS
        };
        assert!(rt; fails_so(alloc, &line, status, check)?, "call {call}");
    }
    Ok(())
}

/// addi x5, x5, 1 and jal x0, -4, and a byte in each of pages 1 and 2.
fn counts() -> [u8; 8193] {
    let mut image = [0; 8193];
    image[..8].copy_from_slice(&[0x93, 0x82, 0x12, 0, 0x6f, 0xf0, 0xdf, 0xff]);
    image[4096] = 1;
    image[8192] = 1;
    image
}

const COUNTED: &str = "save failed blocked 0 faults 0 sweep 1
clock 8
cpu 0 running pc 0000000080000000 steps 4
x5 0000000000000002
cpu 1 running pc 0000000080000000 steps 4
x5 0000000000000002
x10 0000000000000001
serial 0 lost 0
timer 0000000000000000
ram pages 3 nonzero 3 sum ffdff06f00128295
fault 4 file-fault
";

/// A save, and the members of its order.
#[rattlefmt::skip]
static TURNS: [(&[&str], &[u8]); 2] = [
    (&["save", "image=a", "out=b", "vcpus=2", "pages=3", "run=4", "turns="], &[0, 1, 0, 1, 0, 1, 0, 1]),
    (&["save", "image=a", "out=b", "vcpus=2", "pages=3", "run=4", "turns=ss1111s00"], &[1, 1, 1, 1, 0, 0, 0, 0]),
];

#[test]
fn a_failed_save_runs_all_turns_that_are_left(rt: HostRuntime) -> Result<(), Fail> {
    let image = counts();
    for &(words, second) in &TURNS {
        let line = Line {
            words,
            image: &image,
            output_fails: Fails::At(5),
            printed: COUNTED,
            second,
            ..FAILS
        };
        assert!(rt; fails_so(rt.alloc(), &line, 3, "fault 3 file magic 0\n")?);
    }
    Ok(())
}

/// How many calls write the report of one vCPU and no serial byte.
const WRITES: u64 = 4;

const WHOLE: &str = "save complete blocked 1 faults 1 sweep 1
clock 3
cpu 0 running pc 0000000080000008 steps 2
x5 0000000080001000
serial 0 lost 0
timer 0000000000000000
ram pages 2 nonzero 2 sum 0052b02380002297
";

/// The save over a console.
fn save(console_fails: Fails) -> Line<'static> {
    Line {
        words: &WORDS,
        image: &STORES,
        console_fails,
        printed: WHOLE,
        second: &[0, 0, 0],
        ..LINE
    }
}

/// How many bytes of the report were printed in front of the fault line where a call on the console fails and the file is this
/// one.
fn front_of(alloc: Global, call: u64, file: &[u8]) -> Result<Option<usize>, Fail> {
    let done = answer(alloc, &save(Fails::At(call)))?;
    if done.answer.status != 5
        || !is_order(&done.answer.second, &[0, 0, 0])
        || done.written() != file
    {
        return Ok(None);
    }
    Ok(
        done.printed()
            .strip_suffix("fault 5 console-fault\n")
            .filter(|front| WHOLE.starts_with(front))
            .map(str::len),
    )
}

#[test]
fn a_console_that_fails_leaves_the_file_whole(rt: HostRuntime) -> Result<(), Fail> {
    let alloc = rt.alloc();
    let file = file_of(alloc, &STORES_AT_BOOT)?;
    let mut last = None;
    for call in 1..=WRITES {
        let front = front_of(alloc, call, &file)?;
        assert!(rt; front > last, "call {call}");
        last = front;
    }
    let line = Line {
        written: &file,
        ..save(Fails::At(WRITES + 1))
    };
    assert_eq!(rt; difference(alloc, &line)?, None);
    Ok(())
}

#[test]
fn a_read_of_the_image_that_fails_comes_before_the_output(rt: HostRuntime) -> Result<(), Fail> {
    for call in 1..=2 {
        let line = Line {
            words: &WORDS,
            image: &STORES,
            image_fails: Fails::At(call),
            output_fails: Fails::From(1),
            status: 6,
            fault: Some(Fault::ImageFault),
            printed: "fault 6 image-fault\n",
            ..LINE
        };
        assert_eq!(rt; difference(rt.alloc(), &line)?, None);
    }
    Ok(())
}

#[test]
fn an_output_that_has_bytes_keeps_them_and_the_first_phase_is_told(
    rt: HostRuntime,
) -> Result<(), Fail> {
    let line = Line {
        words: &["save", "image=a", "out=b", "pages=2", "stop=1", "run=1"],
        image: &STORES,
        output: b"x",
        output_fails: Fails::From(2),
        status: 8,
        fault: Some(Fault::NotEmpty { len: 1 }),
        printed: "fault 8 not-empty 1\n",
        first: &[0],
        written: b"x",
        ..LINE
    };
    assert_eq!(rt; difference(rt.alloc(), &line)?, None);
    Ok(())
}
