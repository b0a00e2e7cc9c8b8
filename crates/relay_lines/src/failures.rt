use ram_block::NoGate;
use std::alloc::{AllocError, Global};
use std::sync::Wait;
use std::test::Fail;
use std::thread::Threads;
use test_lines::{ADDS, Fails, LINE, Line, answer_on_threads, counting, counts_behind, is_checked};

/// Two vCPUs that store nothing, and a save whose second page can't be written: each page was copied all the same.
const COUNTED: &str = "save failed blocked 0 faults 0 sweep 3
clock 8
cpu 0 running pc 0000000080000000 steps 4
x5 0000000000000002
cpu 1 running pc 0000000080000000 steps 4
x5 0000000000000002
x10 0000000000000001
serial 0 lost 0
timer 0000000000000000
ram pages 3 nonzero 3 sum ffdff06f00128295
fault 4 file-fault
";

/// Whether a save that fails at its second page counts all three, and both vCPUs run to the end of their phase.
fn fails_in_the_middle<R: Threads + Wait + Sync>(rt: &R, alloc: Global) -> Result<bool, Fail> {
    let line = Line {
        words: &[
            "save",
            "image=a",
            "out=b",
            "vcpus=2",
            "pages=3",
            "run=4",
            "mode=threads",
            "relay=1",
        ],
        image: &counting(),
        output_fails: Fails::At(5),
        ..LINE
    };
    let done = answer_on_threads(rt, alloc, &line, &NoGate)?;
    let answer = &done.answer;
    Ok(
        answer.status == 4
            && done.printed() == COUNTED
            && answer.second.count() == 8
            && is_checked(alloc, done.written(), 3, "fault 3 file magic 0\n")?,
    )
}

#[test]
fn a_save_that_fails_in_the_middle_counts_every_copy(rt: HostRuntime) -> Result<(), Fail> {
    assert!(rt; fails_in_the_middle(&rt, rt.alloc())?);
    Ok(())
}

/// The guest that adds, with ones in all else of six pages.
fn six_pages(alloc: Global) -> Result<Vec<u8>, AllocError> {
    let mut image = ADDS.to_vec(alloc)?;
    image.resize(0x6000, 1)?;
    Ok(image)
}

/// What it has become once each of two vCPUs has added twice to ones.
const ADDED_TO_ONES: &str = "clock 30
cpu 0 running pc 000000008000000c steps 11
x5 0000000080002000
x7 0101010101010103
cpu 1 running pc 000000008000000c steps 11
x5 0000000080003000
x6 0000000000001000
x7 0101010101010103
x10 0000000000000001
serial 0 lost 0
timer 0000000000000000
ram pages 6 nonzero 6 sum 0a437fc307de214c
";

const FAULT: &str = "fault 4 file-fault\n";

const CHECKED: &str = "ok vcpus 2 blocks 1 pages 6\n";

/// A call on the file that fails alone, and how the file is checked then. The calls are the length, the shut gate and a sync; six
/// pages, the head, the tail and a sync; the open gate and a sync.
#[rattlefmt::skip]
static CALLS: [(u64, u8, &str); 14] = [
    (1, 3, "fault 3 file truncated 0\n"),
    (2, 3, "fault 3 file truncated 0\n"),
    (3, 3, "fault 3 file truncated 0\n"),
    (4, 3, "fault 3 file truncated 0\n"),
    (5, 3, "fault 3 file magic 0\n"),
    (6, 3, "fault 3 file magic 0\n"),
    (7, 3, "fault 3 file magic 0\n"),
    (8, 3, "fault 3 file magic 0\n"),
    (9, 3, "fault 3 file magic 0\n"),
    (10, 3, "fault 3 file magic 0\n"),
    (11, 3, "fault 3 file magic 4544077\n"),
    (12, 3, "fault 3 file magic 4544077\n"),
    (13, 3, "fault 3 file magic 4544077\n"),
    (14, 0, CHECKED),
];

/// The words of a save of the six pages over a relay.
fn words_with(relay: &'static str) -> [&'static str; 8] {
    [
        "save",
        "image=a",
        "out=b",
        "vcpus=2",
        "pages=6",
        "run=11",
        "mode=threads",
        relay,
    ]
}

/// Whether a report behind such a first line counts each of six pages once, and tells the guest that ran on, and no more.
fn ran_on(printed: &str, begins: &str) -> bool {
    match counts_behind(printed, begins) {
        Some((counts, rest)) => {
            counts.faults <= 2 && counts.pages() == 6 && rest == ADDED_TO_ONES
        }
        None => false,
    }
}

/// Whether a save in which this call on the file fails alone ends before its second phase, with the line of the fault alone,
/// or behind it with the report of the guest that ran on; and whether a check of its file has this status and this line.
fn fails_so<'a, R: Threads + Wait + Sync>(
    rt: &R,
    alloc: Global,
    words: &'a [&'static str],
    image: &'a [u8],
    call: u64,
    status: u8,
    check: &'a str,
) -> Result<bool, Fail> {
    let line = Line {
        words,
        image,
        output_fails: Fails::At(call),
        ..LINE
    };
    let done = answer_on_threads(rt, alloc, &line, &NoGate)?;
    let events = done.answer.second.count();
    let ended = if call <= 3 {
        done.printed() == FAULT && events == 0
    } else {
        let report = done.printed().strip_suffix(FAULT).unwrap_or("");
        ran_on(report, "save failed") && events == 30
    };
    Ok(done.answer.status == 4 && ended && is_checked(alloc, done.written(), status, check)?)
}

/// Whether a save in which each call on the file behind the last one fails is complete.
fn is_complete<'a, R: Threads + Wait + Sync>(
    rt: &R,
    alloc: Global,
    words: &'a [&'static str],
    image: &'a [u8],
) -> Result<bool, Fail> {
    let line = Line {
        words,
        image,
        output_fails: Fails::From(15),
        ..LINE
    };
    let done = answer_on_threads(rt, alloc, &line, &NoGate)?;
    Ok(
        done.answer.status == 0
            && ran_on(done.printed(), "save complete")
            && is_checked(alloc, done.written(), 0, CHECKED)?,
    )
}

#[test]
fn where_a_call_on_the_file_fails_the_guest_runs_on_and_each_page_is_counted(
    rt: HostRuntime,
) -> Result<(), Fail> {
    let alloc = rt.alloc();
    let image = six_pages(alloc)?;
    for relay in ["relay=1", "relay=64"] {
        let words = words_with(relay);
        for &(call, status, check) in &CALLS {
            assert!(rt;
                fails_so(&rt, alloc, &words, &image, call, status, check)?,
                "{relay}, call {call}"
            );
        }
        assert!(rt; is_complete(&rt, alloc, &words, &image)?, "{relay}");
    }
    Ok(())
}
