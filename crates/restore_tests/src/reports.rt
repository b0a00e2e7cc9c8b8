use snapshot_by_hand::{AT_BOOT, Cpu, SMALLEST, Snapshot, file_of};
use std::alloc::Global;
use std::test::Fail;
use test_lines::{Differs, Line, READER, difference};

/// A restore alone.
const NO_RUN: [&str; 2] = ["restore", "in=a"];

/// In what a restore of a file differs from the report and the order that are wanted, if in anything.
fn restored<'a>(
    alloc: Global,
    file: &'a [u8],
    words: &'a [&'static str],
    printed: &'a str,
    first: &'a [u8],
) -> Result<Option<Differs>, Fail> {
    let line = Line {
        words,
        input: file,
        printed,
        first,
        ..READER
    };
    Ok(difference(alloc, &line)?)
}

const NOT_RUN: &str = "clock 0
cpu 0 running pc 0000000080000000 steps 0
serial 0 lost 0
timer 0000000000000000
ram pages 1 nonzero 1 sum 0000007300100293
";

const AFTER_ONE: &str = "clock 1
cpu 0 running pc 0000000080000004 steps 1
x5 0000000000000001
serial 0 lost 0
timer 0000000000000000
ram pages 1 nonzero 1 sum 0000007300100293
";

const AT_ECALL: &str = "clock 2
cpu 0 ecall pc 0000000080000004 steps 1
x5 0000000000000001
serial 0 lost 0
timer 0000000000000000
ram pages 1 nonzero 1 sum 0000007300100293
";

/// A restore, the report, and the members of the order.
static RUNS: [(&[&str], &str, &[u8]); 4] = [
    (&["restore", "in=a", "run=0"], NOT_RUN, &[]),
    (&["restore", "in=a", "run=1"], AFTER_ONE, &[0]),
    (&["restore", "in=a", "run=2"], AT_ECALL, &[0, 0]),
    (&["restore", "in=a", "run=1000000"], AT_ECALL, &[0, 0]),
];

#[test]
fn the_guest_runs_as_many_instructions_as_are_asked_for(rt: HostRuntime) -> Result<(), Fail> {
    let alloc = rt.alloc();
    let file = file_of(alloc, &SMALLEST)?;
    for (words, report, order) in &RUNS {
        assert_eq!(rt;
            restored(alloc, &file, words, report, order)?,
            None,
            "{report}"
        );
    }
    Ok(())
}

/// A vCPU that has run: its first and last register, and a lower half of ones.
const RAN: Cpu<'static> = Cpu {
    regs: &[(1, u64::MAX), (10, 7), (31, 0xfedc_ba98_7654_3210)],
    pc: 0x8000_0ffc,
    steps: 1 << 62,
    state: 0,
};

const AS_SAVED: &str = "clock 4611686018427387904
cpu 0 running pc 0000000080000ffc steps 4611686018427387904
x1 ffffffffffffffff
x10 0000000000000007
x31 fedcba9876543210
serial 0 lost 18446744073709551615
timer 8000000000000001
ram pages 8 nonzero 1 sum 0000007300100293
";

const SAVED: Snapshot<'static> = Snapshot {
    blocks: 8,
    cpus: &[RAN],
    lost: u64::MAX,
    clock: 1 << 62,
    cmp: 0x8000_0000_0000_0001,
    ..SMALLEST
};

#[test]
fn registers_lost_bytes_and_timer_are_those_of_the_file(rt: HostRuntime) -> Result<(), Fail> {
    let alloc = rt.alloc();
    let file = file_of(alloc, &SAVED)?;
    assert_eq!(rt; restored(alloc, &file, &NO_RUN, AS_SAVED, &[])?, None);
    Ok(())
}

const FIRST_CAUSES: &str = "clock 5
cpu 0 fetch-misaligned pc 0000000080000000 steps 0
cpu 1 fetch-outside pc 0000000080000000 steps 0
cpu 2 illegal pc 0000000080000000 steps 0
cpu 3 jump-misaligned pc 0000000080000000 steps 0
cpu 4 load-misaligned pc 0000000080000000 steps 0
cpu 5 load-outside pc 0000000080000000 steps 0
cpu 6 store-misaligned pc 0000000080000000 steps 0
cpu 7 store-outside pc 0000000080000000 steps 0
serial 0 lost 0
timer 0000000000000000
ram pages 1 nonzero 1 sum 0000007300100293
";

const LAST_CAUSES: &str = "clock 5
cpu 0 ecall pc 0000000080000000 steps 0
cpu 1 ebreak pc 0000000080000000 steps 0
serial 0 lost 0
timer 0000000000000000
ram pages 1 nonzero 1 sum 0000007300100293
";

/// A vCPU that is halted where it boots, by the cause with this code.
fn halted(state: u8) -> Cpu<'static> {
    Cpu { state, ..AT_BOOT }
}

#[test]
fn a_halted_vcpu_stays_halted_by_its_cause(rt: HostRuntime) -> Result<(), Fail> {
    let alloc = rt.alloc();
    let first_causes = [1, 2, 3, 4, 5, 6, 7, 8].map(halted);
    let last_causes = [9, 10].map(halted);
    for (cpus, report) in [
        (first_causes.as_slice(), FIRST_CAUSES),
        (last_causes.as_slice(), LAST_CAUSES),
    ] {
        let snapshot = Snapshot {
            cpus,
            clock: 5,
            ..SMALLEST
        };
        assert_eq!(rt;
            restored(
                alloc,
                &file_of(alloc, &snapshot)?,
                &["restore", "in=a", "run=3"],
                report,
                &[]
            )?,
            None
        );
    }
    Ok(())
}

const EIGHT: &str = "clock 8
cpu 0 running pc 0000000080000004 steps 1
x5 0000000000000001
cpu 1 running pc 0000000080000004 steps 1
x5 0000000000000001
cpu 2 running pc 0000000080000004 steps 1
x5 0000000000000001
cpu 3 running pc 0000000080000004 steps 1
x5 0000000000000001
cpu 4 running pc 0000000080000004 steps 1
x5 0000000000000001
cpu 5 running pc 0000000080000004 steps 1
x5 0000000000000001
cpu 6 running pc 0000000080000004 steps 1
x5 0000000000000001
cpu 7 running pc 0000000080000004 steps 1
x5 0000000000000001
serial 0 lost 0
timer 0000000000000000
ram pages 1 nonzero 1 sum 0000007300100293
";

const OF_EIGHT: Snapshot<'static> = Snapshot {
    cpus: &[AT_BOOT; 8],
    ..SMALLEST
};

#[test]
fn eight_vcpus_take_turns(rt: HostRuntime) -> Result<(), Fail> {
    let alloc = rt.alloc();
    let file = file_of(alloc, &OF_EIGHT)?;
    let (words, order) = (["restore", "in=a", "run=1"], [0, 1, 2, 3, 4, 5, 6, 7]);
    assert_eq!(rt; restored(alloc, &file, &words, EIGHT, &order)?, None);
    Ok(())
}

const BYTES: [u8; 33] = *b"0123456789abcdefghijklmnopqrstuvw";

const OF_31: &str = "clock 0
cpu 0 running pc 0000000080000000 steps 0
serial 31 lost 1
303132333435363738396162636465666768696a6b6c6d6e6f707172737475
timer 0000000000000000
ram pages 1 nonzero 1 sum 0000007300100293
";

const OF_32: &str = "clock 0
cpu 0 running pc 0000000080000000 steps 0
serial 32 lost 1
303132333435363738396162636465666768696a6b6c6d6e6f70717273747576
timer 0000000000000000
ram pages 1 nonzero 1 sum 0000007300100293
";

const OF_33: &str = "clock 0
cpu 0 running pc 0000000080000000 steps 0
serial 33 lost 1
303132333435363738396162636465666768696a6b6c6d6e6f70717273747576
77
timer 0000000000000000
ram pages 1 nonzero 1 sum 0000007300100293
";

#[test]
fn serial_bytes_stand_32_in_a_line(rt: HostRuntime) -> Result<(), Fail> {
    let alloc = rt.alloc();
    for (len, report) in [(31, OF_31), (32, OF_32), (33, OF_33)] {
        let snapshot = Snapshot {
            serial: BYTES.get(..len).unwrap_or(&[]),
            lost: 1,
            ..SMALLEST
        };
        assert_eq!(rt;
            restored(alloc, &file_of(alloc, &snapshot)?, &NO_RUN, report, &[])?,
            None,
            "{len}"
        );
    }
    Ok(())
}
