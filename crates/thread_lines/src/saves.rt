use ram_block::NoGate;
use snapshot_by_hand::{GUEST, SMALLEST, file_of};
use std::alloc::Global;
use std::sync::Wait;
use std::test::Fail;
use std::thread::Threads;
use test_lines::{
    ADDED, ADDS, Differs, Fails, LINE, Line, READER, answer_on_threads, counting, counts_behind,
    difference, difference_of, is_checked, is_order,
};

const SMALLEST_REPORT: &str = "save complete blocked 0 faults 0 sweep 1
clock 0
cpu 0 running pc 0000000080000000 steps 0
serial 0 lost 0
timer 0000000000000000
ram pages 1 nonzero 1 sum 0000007300100293
";

/// In what a save on threads of the smallest machine differs from one on one thread, if in anything.
fn smallest<R: Threads + Wait + Sync>(rt: &R, alloc: Global) -> Result<Option<Differs>, Fail> {
    let file = file_of(alloc, &SMALLEST)?;
    let line = Line {
        words: &["save", "image=a", "out=b", "pages=1", "mode=threads"],
        image: &GUEST,
        printed: SMALLEST_REPORT,
        written: &file,
        ..LINE
    };
    Ok(difference_of(&answer_on_threads(rt, alloc, &line, &NoGate)?, &line))
}

#[test]
fn the_smallest_machine_is_saved_as_on_one_thread(rt: HostRuntime) -> Result<(), Fail> {
    assert_eq!(rt; smallest(&rt, rt.alloc())?, None);
    Ok(())
}

/// What the guest that adds was at the instant.
const ADDED_AT_THE_INSTANT: &str = "clock 29998
cpu 0 running pc 0000000080000010 steps 10000
x5 0000000080002000
x7 00000000000009c3
cpu 1 running pc 0000000080000010 steps 10000
x5 0000000080003000
x6 0000000000001000
x7 00000000000009c3
x10 0000000000000001
serial 0 lost 0
timer 0000000000000000
ram pages 512 nonzero 3 sum 013a76b9ffd62cd2
";

/// Two vCPUs with two blocks of 256 pages, saved in the middle of their run.
const ADDING: Line<'static> = Line {
    words: &[
        "save",
        "image=a",
        "out=b",
        "vcpus=2",
        "blocks=2",
        "pages=256",
        "stop=10000",
        "run=50000",
        "mode=threads",
    ],
    image: &ADDS,
    room: 4_194_991,
    ..LINE
};

/// Whether a file is read back with this text by these words.
fn reads_back<'a>(
    alloc: Global,
    file: &'a [u8],
    words: &'a [&'static str],
    printed: &'a str,
) -> Result<bool, Fail> {
    let line = Line {
        words,
        input: file,
        printed,
        ..READER
    };
    Ok(difference(alloc, &line)?.is_none())
}

/// Whether the guest ran on as it would alone, each of its pages was counted once, and its file is the instant's.
fn saves_adding<R: Threads + Wait + Sync>(rt: &R, alloc: Global) -> Result<bool, Fail> {
    let done = answer_on_threads(rt, alloc, &ADDING, &NoGate)?;
    let Some((counts, rest)) = counts_behind(done.printed(), "save complete") else {
        return Ok(false);
    };
    let answer = &done.answer;
    Ok(
        answer.status == 0
            && counts.pages() == 512
            && counts.faults <= 2
            && rest == ADDED
            && answer.first.count() == 29_998
            && answer.second.count() == 150_000
            && done.written().len() == 4_194_991
            && reads_back(
                alloc,
                done.written(),
                &["check", "in=a"],
                "ok vcpus 2 blocks 2 pages 256\n",
            )?
            && reads_back(
                alloc,
                done.written(),
                &["restore", "in=a"],
                ADDED_AT_THE_INSTANT,
            )?,
    )
}

#[test]
fn a_guest_saved_in_its_run_ends_as_without_a_save(rt: HostRuntime) -> Result<(), Fail> {
    assert!(rt; saves_adding(&rt, rt.alloc())?);
    Ok(())
}

/// auipc x5, 1 and sd x5, 0(x5): it stores into page 1.
const STORES: [u8; 8] = [0x97, 0x12, 0, 0, 0x23, 0xb0, 0x52, 0];

const STORED: &str = "clock 3
cpu 0 running pc 0000000080000008 steps 2
x5 0000000080001000
serial 0 lost 0
timer 0000000000000000
ram pages 2 nonzero 2 sum 0052b02380002297
fault 4 file-fault
";

/// Whether a save in which this call on the file fails alone ends before its second phase, with the line of the fault alone,
/// or behind it with the report of the guest that ran on; and whether a check of its file has this status and this line.
fn fails_so<R: Threads + Wait + Sync>(
    rt: &R,
    alloc: Global,
    call: u64,
    status: u8,
    check: &'static str,
) -> Result<bool, Fail> {
    let line = Line {
        words: &[
            "save",
            "image=a",
            "out=b",
            "pages=2",
            "run=2",
            "mode=threads",
        ],
        image: &STORES,
        output_fails: Fails::At(call),
        ..LINE
    };
    let done = answer_on_threads(rt, alloc, &line, &NoGate)?;
    let second = &done.answer.second;
    let ended = if call <= 3 {
        done.printed() == "fault 4 file-fault\n" && is_order(second, &[])
    } else {
        ran_on(done.printed()) && is_order(second, &[0, 0, 0])
    };
    Ok(done.answer.status == 4 && ended && is_checked(alloc, done.written(), status, check)?)
}

/// Whether the report of a failed save counts no page twice, and tells the guest that ran on.
fn ran_on(printed: &str) -> bool {
    match counts_behind(printed, "save failed") {
        Some((counts, rest)) => counts.faults <= 1 && counts.pages() <= 2 && rest == STORED,
        None => false,
    }
}

/// A call on the file that fails alone, and how the file is checked then.
#[rattlefmt::skip]
static CALLS: [(u64, u8, &str); 9] = [
    (1, 3, "fault 3 file truncated 0\n"),
    (2, 3, "fault 3 file truncated 0\n"),
    (3, 3, "fault 3 file truncated 0\n"),
    (4, 3, "fault 3 file truncated 0\n"),
    (5, 3, "fault 3 file magic 0\n"),
    (6, 3, "fault 3 file magic 4544077\n"),
    (7, 3, "fault 3 file magic 4544077\n"),
    (8, 3, "fault 3 file magic 4544077\n"),
    (9, 0, "ok vcpus 1 blocks 1 pages 2\n"),
];

#[test]
fn where_a_call_on_the_file_fails_every_page_is_released(rt: HostRuntime) -> Result<(), Fail> {
    for &(call, status, check) in &CALLS {
        assert!(rt;
            fails_so(&rt, rt.alloc(), call, status, check)?,
            "call {call}"
        );
    }
    Ok(())
}

const COUNTED: &str = "save failed blocked 0 faults 0 sweep 1
clock 8
cpu 0 running pc 0000000080000000 steps 4
x5 0000000000000002
cpu 1 running pc 0000000080000000 steps 4
x5 0000000000000002
x10 0000000000000001
serial 0 lost 0
timer 0000000000000000
ram pages 3 nonzero 3 sum ffdff06f00128295
fault 4 file-fault
";

/// Whether a save of two vCPUs that store nothing fails at its second page, and both run to the end of their phase, with no
/// stop and no fault counted.
fn fails_in_the_middle<R: Threads + Wait + Sync>(rt: &R, alloc: Global) -> Result<bool, Fail> {
    let line = Line {
        words: &[
            "save",
            "image=a",
            "out=b",
            "vcpus=2",
            "pages=3",
            "run=4",
            "mode=threads",
        ],
        image: &counting(),
        output_fails: Fails::At(5),
        ..LINE
    };
    let done = answer_on_threads(rt, alloc, &line, &NoGate)?;
    let answer = &done.answer;
    Ok(answer.status == 4 && done.printed() == COUNTED && answer.second.count() == 8)
}

#[test]
fn vcpus_that_store_nothing_are_never_stopped(rt: HostRuntime) -> Result<(), Fail> {
    assert!(rt; fails_in_the_middle(&rt, rt.alloc())?);
    Ok(())
}
