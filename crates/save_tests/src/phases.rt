use crate::row::{Restored, Save, all_restored, behind_first_line, saved, saved_of};
use snapshot_by_hand::{AT_BOOT, Cpu, SMALLEST, Snapshot, file_of};
use std::alloc::Global;
use std::test::Fail;
use test_lines::{Fails, LINE, Line, answer};

/// auipc x5, 1 and sd x5, 0(x5): it stores into page 1.
pub(crate) const STORES: [u8; 8] = [0x97, 0x12, 0, 0, 0x23, 0xb0, 0x52, 0];

/// auipc x5, 1 and sd x10, 0(x5): each vCPU stores its number into page 1.
const TOGETHER: [u8; 8] = [0x97, 0x12, 0, 0, 0x23, 0xb0, 0xa2, 0];

/// The guest that stores at boot, in two pages of which the second is zeros.
pub(crate) const STORES_AT_BOOT: Snapshot<'static> = Snapshot {
    pages: 2,
    saved: &[(0, &STORES)],
    ..SMALLEST
};

const STORED_AFTER_ITS_FAULT: &str = "save complete blocked 1 faults 1 sweep 1
clock 3
cpu 0 running pc 0000000080000008 steps 2
x5 0000000080001000
serial 0 lost 0
timer 0000000000000000
ram pages 2 nonzero 2 sum 0052b02380002297
";

const STORED_AFTER_THE_SWEEP: &str = "save complete blocked 0 faults 0 sweep 2
clock 3
cpu 0 running pc 0000000080000008 steps 2
x5 0000000080001000
serial 0 lost 0
timer 0000000000000000
ram pages 2 nonzero 2 sum 0052b02380002297
";

const STORED_BY_DRAWN_TURNS: &str = "save complete blocked 2 faults 1 sweep 1
clock 3
cpu 0 running pc 0000000080000008 steps 2
x5 0000000080001000
serial 0 lost 0
timer 0000000000000000
ram pages 2 nonzero 2 sum 0052b02380002297
";

const AT_THE_INSTANT: &str = "clock 0
cpu 0 running pc 0000000080000000 steps 0
serial 0 lost 0
timer 0000000000000000
ram pages 2 nonzero 1 sum 0052b02300001297
";

/// The save of the guest that stores.
const STORED: Save = Save {
    words: &["save", "image=a", "out=b", "pages=2", "run=2"],
    image: &STORES,
    report: STORED_AFTER_THE_SWEEP,
    first: &[],
    second: &[0, 0, 0],
    instant: STORES_AT_BOOT,
    restored: &[(&["restore", "in=a", "run=0"], AT_THE_INSTANT, &[])],
};

/// The word of the turns, and the report.
static TURNS: [(&str, &str); 6] = [
    ("turns=000s0", STORED_AFTER_ITS_FAULT),
    ("turns=ss000", STORED_AFTER_THE_SWEEP),
    ("turns=", STORED_AFTER_THE_SWEEP),
    ("seed=0", STORED_AFTER_THE_SWEEP),
    ("seed=2", STORED_BY_DRAWN_TURNS),
    ("seed=18446744073709551615", STORED_AFTER_THE_SWEEP),
];

#[test]
fn a_store_waits_for_the_saver_and_the_file_has_the_instant(rt: HostRuntime) -> Result<(), Fail> {
    let alloc = rt.alloc();
    let file = file_of(alloc, &STORES_AT_BOOT)?;
    for &(turns, report) in &TURNS {
        let save = Save { report, ..STORED };
        let words = ["save", "image=a", "out=b", "pages=2", "run=2", turns];
        assert_eq!(rt;
            saved_of(alloc, &save, &words, &STORES, &file)?,
            None,
            "{turns}"
        );
    }
    Ok(())
}

/// auipc x5, 0, sw x0, 8(x5) and addi x6, x0, 7: it clears its own next instruction.
const CLEARS_ITSELF: [u8; 12] = [0x97, 2, 0, 0, 0x23, 0xa4, 2, 0, 0x13, 3, 0x70, 0];

const CLEARED: &str = "save complete blocked 1 faults 1 sweep 0
clock 4
cpu 0 illegal pc 0000000080000008 steps 2
x5 0000000080000000
serial 0 lost 0
timer 0000000000000000
ram pages 1 nonzero 1 sum 0002a42300000297
";

/// auipc x5, 1 and sd x0, 0(x5), and a byte in page 1.
const CLEARS_A_PAGE: [u8; 8] = [0x97, 0x12, 0, 0, 0x23, 0xb0, 2, 0];

const PAGE_CLEARED: &str = "save complete blocked 1 faults 1 sweep 1
clock 3
cpu 0 running pc 0000000080000008 steps 2
x5 0000000080001000
serial 0 lost 0
timer 0000000000000000
ram pages 2 nonzero 1 sum 0002b02300001297
";

/// lui x6, 0x2000, ld x7, 0(x6), auipc x5, 1, sd x7, 0(x5) and ld x8, 0(x6): it stores the time.
const STORES_TIME: [u8; 20] = [
    0x37, 3, 0, 2, 0x83, 0x33, 3, 0, 0x97, 0x12, 0, 0, 0x23, 0xb0, 0x72, 0, 3, 0x34, 3, 0,
];

const TIME_STORED: &str = "save complete blocked 1 faults 1 sweep 1
clock 8
cpu 0 running pc 0000000080000014 steps 5
x5 0000000080001008
x6 0000000002000000
x7 0000000000000002
x8 0000000000000007
serial 0 lost 0
timer 0000000000000000
ram pages 2 nonzero 2 sum 0075e3a6020349d3
";

/// A store over the vCPU's own next instruction, and one of the time.
#[rattlefmt::skip]
static MADE_ONCE: [Save; 2] = [
    Save {
        words: &["save", "image=a", "out=b", "pages=1", "run=3", "turns=000s00"],
        image: &CLEARS_ITSELF,
        report: CLEARED,
        first: &[],
        second: &[0; 4],
        instant: Snapshot {
            saved: &[(0, &CLEARS_ITSELF)],
            ..SMALLEST
        },
        restored: &[],
    },
    Save {
        words: &["save", "image=a", "out=b", "pages=2", "run=5", "turns=000000s000"],
        image: &STORES_TIME,
        report: TIME_STORED,
        first: &[],
        second: &[0; 8],
        instant: Snapshot {
            pages: 2,
            saved: &[(0, &STORES_TIME)],
            ..SMALLEST
        },
        restored: &[],
    },
];

#[test]
fn a_stopped_store_is_made_once_and_costs_no_time(rt: HostRuntime) -> Result<(), Fail> {
    for save in &MADE_ONCE {
        assert_eq!(rt; saved(rt.alloc(), save)?, None);
    }
    Ok(())
}

/// The image of the guest that clears a page, and a byte in that page.
fn with_a_byte() -> [u8; 4097] {
    let mut image = [0; 4097];
    image[..8].copy_from_slice(&CLEARS_A_PAGE);
    image[4096] = 0xaa;
    image
}

/// The save of the guest that clears a page.
const CLEARING: Save = Save {
    words: &[
        "save",
        "image=a",
        "out=b",
        "pages=2",
        "run=2",
        "turns=000s0",
    ],
    image: &CLEARS_A_PAGE,
    report: PAGE_CLEARED,
    first: &[],
    second: &[0; 3],
    instant: Snapshot {
        pages: 2,
        saved: &[(0, &CLEARS_A_PAGE), (1, &[0xaa])],
        ..SMALLEST
    },
    restored: &[],
};

#[test]
fn a_page_that_was_cleared_behind_its_copy_has_its_byte_in_the_file(
    rt: HostRuntime,
) -> Result<(), Fail> {
    let alloc = rt.alloc();
    let file = file_of(alloc, &CLEARING.instant)?;
    let found = saved_of(alloc, &CLEARING, CLEARING.words, &with_a_byte(), &file)?;
    assert_eq!(rt; found, None);
    Ok(())
}

const BOTH_STORED: &str = "save complete blocked 2 faults 1 sweep 1
clock 6
cpu 0 running pc 0000000080000008 steps 2
x5 0000000080001000
cpu 1 running pc 0000000080000008 steps 2
x5 0000000080001000
x10 0000000000000001
serial 0 lost 0
timer 0000000000000000
ram pages 2 nonzero 2 sum 00a2b02300001298
";

/// auipc x5, 1, addi x6, x0, 1 and amoadd.d x7, x6, (x5): each vCPU adds one to a word of page 1.
const ADDS: [u8; 12] = [0x97, 0x12, 0, 0, 0x13, 3, 0x10, 0, 0xaf, 0xb3, 0x62, 0];

const BOTH_ADDED: &str = "save complete blocked 2 faults 1 sweep 1
clock 8
cpu 0 running pc 000000008000000c steps 3
x5 0000000080001000
x6 0000000000000001
cpu 1 running pc 000000008000000c steps 3
x5 0000000080001000
x6 0000000000000001
x7 0000000000000001
x10 0000000000000001
serial 0 lost 0
timer 0000000000000000
ram pages 2 nonzero 2 sum 001003130062c648
";

const EIGHT_STORED: &str = "save complete blocked 16 faults 1 sweep 1
clock 24
cpu 0 running pc 0000000080000008 steps 2
x5 0000000080001000
cpu 1 running pc 0000000080000008 steps 2
x5 0000000080001000
x10 0000000000000001
cpu 2 running pc 0000000080000008 steps 2
x5 0000000080001000
x10 0000000000000002
cpu 3 running pc 0000000080000008 steps 2
x5 0000000080001000
x10 0000000000000003
cpu 4 running pc 0000000080000008 steps 2
x5 0000000080001000
x10 0000000000000004
cpu 5 running pc 0000000080000008 steps 2
x5 0000000080001000
x10 0000000000000005
cpu 6 running pc 0000000080000008 steps 2
x5 0000000080001000
x10 0000000000000006
cpu 7 running pc 0000000080000008 steps 2
x5 0000000080001000
x10 0000000000000007
serial 0 lost 0
timer 0000000000000000
ram pages 2 nonzero 2 sum 00a2b0230000129e
";

/// Eight vCPUs at boot, each with its number in x10.
const EIGHT_AT_BOOT: [Cpu<'static>; 8] = [
    AT_BOOT,
    Cpu {
        regs: &[(10, 1)],
        ..AT_BOOT
    },
    Cpu {
        regs: &[(10, 2)],
        ..AT_BOOT
    },
    Cpu {
        regs: &[(10, 3)],
        ..AT_BOOT
    },
    Cpu {
        regs: &[(10, 4)],
        ..AT_BOOT
    },
    Cpu {
        regs: &[(10, 5)],
        ..AT_BOOT
    },
    Cpu {
        regs: &[(10, 6)],
        ..AT_BOOT
    },
    Cpu {
        regs: &[(10, 7)],
        ..AT_BOOT
    },
];

const TWO_AT_BOOT: [Cpu<'static>; 2] = [
    AT_BOOT,
    Cpu {
        regs: &[(10, 1)],
        ..AT_BOOT
    },
];

/// Two and eight vCPUs that store to one page, and two that add to one word of it.
#[rattlefmt::skip]
static TOGETHER_ON_A_PAGE: [Save; 3] = [
    Save {
        words: &["save", "image=a", "out=b", "vcpus=2", "pages=2", "run=2", "turns=001101s01"],
        image: &TOGETHER,
        report: BOTH_STORED,
        first: &[],
        second: &[0, 0, 1, 1, 0, 1],
        instant: Snapshot {
            pages: 2,
            saved: &[(0, &TOGETHER)],
            cpus: &TWO_AT_BOOT,
            ..SMALLEST
        },
        restored: &[],
    },
    Save {
        words: &["save", "image=a", "out=b", "vcpus=2", "pages=2", "run=3", "turns=00001111s01"],
        image: &ADDS,
        report: BOTH_ADDED,
        first: &[],
        second: &[0, 0, 0, 1, 1, 1, 0, 1],
        instant: Snapshot {
            pages: 2,
            saved: &[(0, &ADDS)],
            cpus: &TWO_AT_BOOT,
            ..SMALLEST
        },
        restored: &[],
    },
    Save {
        words: &["save", "image=a", "out=b", "vcpus=8", "pages=2", "run=2", "turns=01234567012345670123456701234567s"],
        image: &TOGETHER,
        report: EIGHT_STORED,
        first: &[],
        second: &[0, 1, 2, 3, 4, 5, 6, 7, 0, 1, 2, 3, 4, 5, 6, 7, 0, 1, 2, 3, 4, 5, 6, 7],
        instant: Snapshot {
            pages: 2,
            saved: &[(0, &TOGETHER)],
            cpus: &EIGHT_AT_BOOT,
            ..SMALLEST
        },
        restored: &[],
    },
];

#[test]
fn vcpus_that_wait_for_one_page_queue_it_once(rt: HostRuntime) -> Result<(), Fail> {
    for save in &TOGETHER_ON_A_PAGE {
        assert_eq!(rt; saved(rt.alloc(), save)?, None);
    }
    Ok(())
}

/// auipc x5, 1, slli x6, x10, 12, add x5, x5, x6 and sd x5, 0(x5): vCPU 0 stores into page 1, and vCPU 1 into page 2.
const APART: [u8; 16] = [
    0x97, 0x12, 0, 0, 0x13, 0x13, 0xc5, 0, 0xb3, 0x82, 0x62, 0, 0x23, 0xb0, 0x52, 0,
];

/// The image of the guest, and a byte in each of pages 1 and 2.
fn apart() -> [u8; 8193] {
    let mut image = [0; 8193];
    image[..16].copy_from_slice(&APART);
    image[4096] = 1;
    image[8192] = 2;
    image
}

/// Two vCPUs fault, vCPU 1 first.
const FAULTS: [&str; 7] = [
    "save",
    "image=a",
    "out=b",
    "vcpus=2",
    "pages=3",
    "run=4",
    "turns=1111100000sss",
];

/// Where the pages of the file begin that the guest writes to.
const FIRST_PAGE_AT: usize = 0x10_1000;

const SECOND_PAGE_AT: usize = 0x10_2000;

/// A call on the file from which on each fails, what the save's line begins with, and which of the two pages are in the file.
#[rattlefmt::skip]
static CUT_AT: [(u64, &str, bool, bool); 2] = [
    (5, "save failed blocked 2 faults 1 sweep 0\n", false, true),
    (6, "save failed blocked 2 faults 2 sweep 0\n", true, true),
];

/// Whether a file has a byte other than 0 at a place.
fn is_written(file: &[u8], at: usize) -> bool {
    file.get(at).is_some_and(|byte| *byte != 0)
}

/// Which of the two pages are in the file where each call on it fails from this one on, if the save ends with this status and
/// this line.
fn cut_at(alloc: Global, call: u64, status: u8, line: &str) -> Result<Option<(bool, bool)>, Fail> {
    let done = answer(
        alloc,
        &Line {
            words: &FAULTS,
            image: &apart(),
            output_fails: Fails::From(call),
            ..LINE
        },
    )?;
    if done.answer.status != status || !done.printed().starts_with(line) {
        return Ok(None);
    }
    let file = done.written();
    Ok(Some((
        is_written(file, FIRST_PAGE_AT),
        is_written(file, SECOND_PAGE_AT),
    )))
}

#[test]
fn pages_are_saved_in_the_order_of_their_faults(rt: HostRuntime) -> Result<(), Fail> {
    for &(call, line, first, second) in &CUT_AT {
        assert!(rt; cut_at(rt.alloc(), call, 4, line)? == Some((first, second)));
    }
    Ok(())
}

/// Eight vCPUs fault, each on a page of its own, before the saver has its first turn.
const ALL_FAULT: [&str; 7] = [
    "save",
    "image=a",
    "out=b",
    "vcpus=8",
    "pages=9",
    "run=4",
    "turns=0123456701234567012345670123456701234567sssssssss",
];

/// The order of five events of each of eight vCPUs: four fetches and a store.
const FIVE_ROUNDS: [u8; 40] = [
    0, 1, 2, 3, 4, 5, 6, 7, 0, 1, 2, 3, 4, 5, 6, 7, 0, 1, 2, 3, 4, 5, 6, 7, 0, 1, 2, 3, 4, 5, 6, 7,
    0, 1, 2, 3, 4, 5, 6, 7,
];

/// Whether the save prints what it has to, and a restore of its file the same report.
fn all_eight_are_saved(alloc: Global) -> Result<bool, Fail> {
    let done = answer(
        alloc,
        &Line {
            words: &ALL_FAULT,
            image: &APART,
            ..LINE
        },
    )?;
    let printed = done.printed();
    let again: Restored = (
        &["restore", "in=a", "run=4"],
        behind_first_line(printed),
        FIVE_ROUNDS.as_slice(),
    );
    Ok(
        done.answer.status == 0
            && printed.starts_with("save complete blocked 8 faults 8 sweep 1\nclock 40\n")
            && printed.contains("\nram pages 9 nonzero 9 sum ")
            && all_restored(alloc, done.written(), &[again])?.is_none(),
    )
}

#[test]
fn eight_vcpus_may_wait_for_eight_pages(rt: HostRuntime) -> Result<(), Fail> {
    assert!(rt; all_eight_are_saved(rt.alloc())?);
    Ok(())
}
