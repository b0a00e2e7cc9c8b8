use crate::row::{Save, behind_first_line, saved};
use snapshot_by_hand::{AT_BOOT, Cpu, SMALLEST, Snapshot};
use std::alloc::Global;
use std::test::Fail;
use test_lines::{LINE, Line, Outcome, READER, answer, answer_difference, difference};

/// lui x5, 0x10000, lbu x6, 0(x5), lbu x7, 0(x5) and lbu x8, 5(x5): it reads two bytes of input, and then the status.
const READS: [u8; 16] = [
    0xb7, 2, 0, 0x10, 3, 0xc3, 2, 0, 0x83, 0xc3, 2, 0, 3, 0xc4, 0x52, 0,
];

const TWO_BYTES_READ: &str = "save complete blocked 0 faults 0 sweep 1
clock 7
cpu 0 running pc 0000000080000010 steps 4
x5 0000000010000000
x6 0000000000000041
x7 0000000000000062
x8 0000000000000020
serial 0 lost 0
timer 0000000000000000
ram pages 1 nonzero 1 sum 005587061002c63a
";

const BEFORE_THE_READS: &str = "clock 1
cpu 0 running pc 0000000080000004 steps 1
x5 0000000010000000
serial 0 lost 0
timer 0000000000000000
ram pages 1 nonzero 1 sum 005587061002c63a
";

const READ_ON: &str = "clock 7
cpu 0 running pc 0000000080000010 steps 4
x5 0000000010000000
x6 0000000000000041
x7 0000000000000062
x8 0000000000000020
serial 0 lost 0
timer 0000000000000000
ram pages 1 nonzero 1 sum 005587061002c63a
";

/// The instant stands before both reads.
const INPUT_LEFT: Save = Save {
    words: &[
        "save",
        "image=a",
        "out=b",
        "pages=1",
        "stop=1",
        "run=3",
        "turns=",
        "serial=Ab",
    ],
    image: &READS,
    report: TWO_BYTES_READ,
    first: &[0],
    second: &[0; 6],
    instant: Snapshot {
        saved: &[(0, &READS)],
        cpus: &[Cpu {
            regs: &[(5, 0x1000_0000)],
            pc: 0x8000_0004,
            steps: 1,
            ..AT_BOOT
        }],
        input: b"Ab",
        clock: 1,
        ..SMALLEST
    },
    restored: &[
        (&["restore", "in=a", "run=3"], READ_ON, &[0; 6]),
        (&["restore", "in=a", "run=0"], BEFORE_THE_READS, &[]),
    ],
};

#[test]
fn input_that_is_left_at_the_instant_is_in_the_file(rt: HostRuntime) -> Result<(), Fail> {
    assert_eq!(rt; saved(rt.alloc(), &INPUT_LEFT)?, None);
    Ok(())
}

const ONE_BYTE_READ_BEFORE: &str = "save complete blocked 0 faults 0 sweep 1
clock 5
cpu 0 running pc 000000008000000c steps 3
x5 0000000010000000
x6 0000000000000041
x7 0000000000000062
serial 0 lost 0
timer 0000000000000000
ram pages 1 nonzero 1 sum 005587061002c63a
";

/// The instant stands between both reads.
const ONE_BYTE_LEFT: Save = Save {
    words: &[
        "save",
        "image=a",
        "out=b",
        "pages=1",
        "stop=2",
        "run=1",
        "turns=0s0",
        "serial=Ab",
    ],
    image: &READS,
    report: ONE_BYTE_READ_BEFORE,
    first: &[0; 3],
    second: &[0; 2],
    instant: Snapshot {
        saved: &[(0, &READS)],
        cpus: &[Cpu {
            regs: &[(5, 0x1000_0000), (6, 0x41)],
            pc: 0x8000_0008,
            steps: 2,
            ..AT_BOOT
        }],
        input: b"b",
        clock: 3,
        ..SMALLEST
    },
    restored: &[],
};

#[test]
fn an_instant_between_two_reads_of_the_device_has_the_byte_that_is_left(
    rt: HostRuntime,
) -> Result<(), Fail> {
    assert_eq!(rt; saved(rt.alloc(), &ONE_BYTE_LEFT)?, None);
    Ok(())
}

const LOAD_MISALIGNED: &str = "save complete blocked 0 faults 0 sweep 1
clock 1
cpu 0 load-misaligned pc 0000000080000000 steps 0
serial 0 lost 0
timer 0000000000000000
ram pages 1 nonzero 1 sum 0000000000103283
";

const JUMP_MISALIGNED: &str = "save complete blocked 0 faults 0 sweep 1
clock 1
cpu 0 jump-misaligned pc 0000000080000000 steps 0
serial 0 lost 0
timer 0000000000000000
ram pages 1 nonzero 1 sum 0000000000000163
";

const ILLEGAL: &str = "save complete blocked 0 faults 0 sweep 1
clock 1
cpu 0 illegal pc 0000000080000000 steps 0
serial 0 lost 0
timer 0000000000000000
ram pages 1 nonzero 0 sum 0000000000000000
";

const SWAP_OUTSIDE: &str = "save complete blocked 0 faults 0 sweep 1
clock 3
cpu 0 store-outside pc 0000000080000008 steps 2
x5 0000000002000008
serial 0 lost 0
timer 0000000000000000
ram pages 1 nonzero 1 sum 008282930a02b5e6
";

/// Guests that halt before the instant, how many instructions each is given, what a save of each prints, and the members of its
/// first order: ld x5, 1(x0); beq x0, x0, 2; no instruction; and lui x5, 0x2000, addi x5, x5, 8 and amoswap.d x6, x0, (x5).
#[rattlefmt::skip]
static HALTED: [(&[u8], &str, &str, &[u8]); 4] = [
    (&[0x83, 0x32, 0x10, 0], "stop=1", LOAD_MISALIGNED, &[0]),
    (&[0x63, 1, 0, 0], "stop=1", JUMP_MISALIGNED, &[0]),
    (&[0, 0, 0, 0], "stop=1", ILLEGAL, &[0]),
    (&[0xb7, 2, 0, 2, 0x93, 0x82, 0x82, 0, 0x2f, 0xb3, 2, 8], "stop=3", SWAP_OUTSIDE, &[0; 3]),
];

/// Whether a save of a guest ends as its line has to, and a restore of its file prints the same machine.
fn is_saved_and_back(alloc: Global, line: &Line, again: &str) -> Result<bool, Fail> {
    let done = answer(alloc, line)?;
    Ok(answer_difference(&done, line).is_none() && is_restored(alloc, done.written(), again)?)
}

/// Whether a restore of a file prints this, and makes no event in its phase.
fn is_restored<'a>(alloc: Global, file: &'a [u8], printed: &'a str) -> Result<bool, Fail> {
    let line = Line {
        words: &["restore", "in=a", "run=1"],
        input: file,
        printed,
        ..READER
    };
    Ok(difference(alloc, &line)?.is_none())
}

#[test]
fn a_vcpu_that_halted_before_the_instant_is_saved_with_its_cause(
    rt: HostRuntime,
) -> Result<(), Fail> {
    for &(image, stop, printed, first) in &HALTED {
        let line = Line {
            words: &["save", "image=a", "out=b", "pages=1", stop],
            image,
            printed,
            first,
            ..LINE
        };
        let again = behind_first_line(printed);
        assert!(rt; is_saved_and_back(rt.alloc(), &line, again)?, "{printed}");
    }
    Ok(())
}

/// A guest that prints a zero 65,537 times, and then reads the status.
const PRINTS: &str = "lui x5, 0x10000
lui x6, 16
addi x6, x6, 1
loop: sb x0, 0(x5)
addi x6, x6, -1
bne x6, x0, loop
lbu x7, 5(x5)
ebreak
";

const BEFORE_THE_ROWS: &str = "clock 262154
cpu 0 ebreak pc 000000008000001c steps 196615
x5 0000000010000000
serial 65536 lost 1
";

const BEHIND_THE_ROWS: &str = "timer 0000000000000000
ram pages 1 nonzero 1 sum fe16a0b11058cc60
";

/// The image of the guest that prints.
fn printing(alloc: Global) -> Result<Outcome, Fail> {
    let line = Line {
        words: &["asm", "image=a", "out=b"],
        image: PRINTS.as_bytes(),
        ..LINE
    };
    Ok(answer(alloc, &line)?)
}

/// The save of the guest that prints.
fn full(alloc: Global) -> Result<Outcome, Fail> {
    let assembled = printing(alloc)?;
    let line = Line {
        words: &["save", "image=a", "out=b", "pages=1", "stop=200000"],
        image: assembled.written(),
        ..LINE
    };
    Ok(answer(alloc, &line)?)
}

/// Whether a report has 2,048 rows of zeros.
fn has_its_rows(report: &str) -> bool {
    let rows = report
        .strip_prefix(BEFORE_THE_ROWS)
        .and_then(|rows| rows.strip_suffix(BEHIND_THE_ROWS))
        .unwrap_or("");
    rows.lines().count() == 2048
        && rows.lines().all(|row| row.len() == 64 && row.bytes().all(|byte| byte == b'0'))
}

/// Whether the save prints its rows into a file of the length that it has to have, and a restore prints them too.
fn is_saved_with_its_rows(alloc: Global) -> Result<bool, Fail> {
    let done = full(alloc)?;
    let report = behind_first_line(done.printed());
    Ok(
        done.answer.status == 0
            && done.written().len() == 1_118_608
            && has_its_rows(report)
            && is_restored(alloc, done.written(), report)?,
    )
}

#[test]
fn a_full_serial_device_is_saved_and_printed(rt: HostRuntime) -> Result<(), Fail> {
    assert!(rt; is_saved_with_its_rows(rt.alloc())?);
    Ok(())
}
