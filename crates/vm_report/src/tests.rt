use super::*;
use bg_saver::{Counts, SaveEnd};
use flat_machine::Machine;
use medium::{FailPlan, Failed, MemSink};
use ram_block::{Cause, MAX_INPUT, Shape};
use rv64i_step::{State, Vcpu};
use serial_timer::{MAX_SERIAL_BYTES, Serial, Timer};
use std::alloc::Global;
use std::test::Fail;

// A test asks for what a machine doesn't have.
#[derive(Debug, Drop)]
struct OutOfLimits;

// How many bytes the outputs of the tests hold.
const ROOM: u64 = 200_000;

const ONE_PAGE: &str = "save complete blocked 0 faults 0 sweep 1
clock 0
cpu 0 running pc 0000000080000000 steps 0
serial 0 lost 0
timer 0000000000000000
ram pages 1 nonzero 1 sum 0000007300100293
";

const TWO_STORE: &str = "clock 6
cpu 0 running pc 0000000080000008 steps 2
x5 0000000080001000
cpu 1 running pc 0000000080000008 steps 2
x5 0000000080001000
x10 0000000000000001
serial 0 lost 0
timer 0000000000000000
ram pages 2 nonzero 2 sum 00a2b02300001298
";

const TWO_ADD: &str = "clock 8
cpu 0 running pc 000000008000000c steps 3
x5 0000000080001000
x6 0000000000000001
cpu 1 running pc 000000008000000c steps 3
x5 0000000080001000
x6 0000000000000001
x7 0000000000000001
x10 0000000000000001
serial 0 lost 0
timer 0000000000000000
ram pages 2 nonzero 2 sum 001003130062c648
";

const STORES_ITS_PLACE: &str = "clock 3
cpu 0 running pc 0000000080000008 steps 2
x5 0000000080001000
serial 0 lost 0
timer 0000000000000000
ram pages 2 nonzero 2 sum 0052b02380002297
";

const EIGHT: &str = "clock 0
cpu 0 running pc 0000000080000000 steps 0
cpu 1 running pc 0000000080000000 steps 0
x10 0000000000000001
cpu 2 running pc 0000000080000000 steps 0
x10 0000000000000002
cpu 3 running pc 0000000080000000 steps 0
x10 0000000000000003
cpu 4 running pc 0000000080000000 steps 0
x10 0000000000000004
cpu 5 running pc 0000000080000000 steps 0
x10 0000000000000005
cpu 6 running pc 0000000080000000 steps 0
x10 0000000000000006
cpu 7 running pc 0000000080000000 steps 0
x10 0000000000000007
serial 0 lost 0
timer 0000000000000000
ram pages 6 nonzero 0 sum 0000000000000000
";

const ALL_ONES: &str = "clock 0
cpu 0 running pc 0000000080000000 steps 0
serial 0 lost 0
timer 0000000000000000
ram pages 2 nonzero 1 sum fffffffffffffffe
";

const GREATEST: &str = "clock 9223372036854775808
cpu 0 running pc fffffffffffffffc steps 18446744073709551615
x1 ffffffffffffffff
x31 fedcba9876543210
serial 0 lost 18446744073709551615
timer 8000000000000001
ram pages 1 nonzero 0 sum 0000000000000000
";

// The words of a guest, its vCPUs, blocks and pages, its instructions, and its report.
#[rattlefmt::skip]
static GUESTS: [(&[u32], [u64; 3], u32, &str); 5] = [
    // auipc x5, 1; sd x10, 0(x5)
    (&[0x1297, 0x00a2_b023], [2, 1, 2], 2, TWO_STORE),
    // auipc x5, 1; addi x6, x0, 1; amoadd.d x7, x6, (x5)
    (&[0x1297, 0x0010_0313, 0x0062_b3af], [2, 1, 2], 3, TWO_ADD),
    // auipc x5, 1; sd x5, 0(x5)
    (&[0x1297, 0x0052_b023], [1, 1, 2], 2, STORES_ITS_PLACE),
    (&[], [8, 2, 3], 0, EIGHT),
    (&[0xffff_ffff, 0xffff_ffff, 0xffff_ffff, 0xffff_ffff], [1, 1, 2], 0, ALL_ONES),
];

// The bytes that the device holds, how many it lost, and its lines.
#[rattlefmt::skip]
static SERIALS: [(usize, u64, &str); 4] = [
    (0, 3, "serial 0 lost 3\ntimer "),
    (31, 0, "serial 31 lost 0\n000102030405060708090a0b0c0d0e0f101112131415161718191a1b1c1d1e\ntimer "),
    (32, 0, "serial 32 lost 0\n000102030405060708090a0b0c0d0e0f101112131415161718191a1b1c1d1e1f\ntimer "),
    (33, 0, "serial 33 lost 0\n000102030405060708090a0b0c0d0e0f101112131415161718191a1b1c1d1e1f\n20\ntimer "),
];

#[rattlefmt::skip]
static CAUSES: [(Cause, &str); 10] = [
    (Cause::FetchMisaligned, "clock 0\ncpu 0 fetch-misaligned pc "),
    (Cause::FetchOutside, "clock 0\ncpu 0 fetch-outside pc "),
    (Cause::Illegal, "clock 0\ncpu 0 illegal pc "),
    (Cause::JumpMisaligned, "clock 0\ncpu 0 jump-misaligned pc "),
    (Cause::LoadMisaligned, "clock 0\ncpu 0 load-misaligned pc "),
    (Cause::LoadOutside, "clock 0\ncpu 0 load-outside pc "),
    (Cause::StoreMisaligned, "clock 0\ncpu 0 store-misaligned pc "),
    (Cause::StoreOutside, "clock 0\ncpu 0 store-outside pc "),
    (Cause::Ecall, "clock 0\ncpu 0 ecall pc "),
    (Cause::Ebreak, "clock 0\ncpu 0 ebreak pc "),
];

// Prints 65,537 bytes, one more than the serial device keeps.
const PRINTS_TOO_MANY: [u32; 8] = [
    0x100002b7, // lui x5, 0x10000
    0x00010337, // lui x6, 0x10
    0x00130313, // addi x6, x6, 1
    0x00028023, // sb x0, 0(x5)
    0xfff30313, // addi x6, x6, -1
    0xfe031ce3, // bne x6, x0, -8
    0x0052c383, // lbu x7, 5(x5)
    0x00100073, // ebreak
];

// An output of which one call fails.
fn failing_at(alloc: Global, call: u64) -> Result<MemSink, Fail> {
    let plan = FailPlan {
        calls: vec![in alloc; call]?,
        from: None,
    };
    Ok(MemSink::new(alloc, ROOM, plan)?)
}

// Calls whose contracts a test doesn't need.
fn put(save: Option<SaveLine>, machine: &Machine, sink: &mut MemSink) -> Result<(), Failed> {
    put_report(save, machine, sink)
}

fn put_shape(shape: &Shape, sink: &mut MemSink) -> Result<(), Failed> {
    put_ok(shape, sink)
}

fn booted(alloc: Global, numbers: [u64; 3], image: &[u8], input: &[u8]) -> Result<Machine, Fail> {
    let shape = Shape::new(numbers[0], numbers[1], numbers[2])?;
    if image.len() as u64 > shape.ram_bytes() || input.len() > MAX_INPUT {
        Err(OutOfLimits)?;
    }
    Ok(Machine::boot(alloc, shape, image, input)?)
}

// A machine at boot, when each vCPU has run so many instructions by rounds.
fn ran(
    alloc: Global,
    numbers: [u64; 3],
    words: &[u32],
    input: &[u8],
    n: u32,
) -> Result<Machine, Fail> {
    let mut image = Vec::new(alloc);
    for word in words {
        image.extend_from_slice(&word.to_le_bytes())?;
    }
    let mut machine = booted(alloc, numbers, &image, input)?;
    if n > 1_000_000 || !machine.at_rest() {
        Err(OutOfLimits)?;
    }
    machine.rounds(alloc, n)?;
    Ok(machine)
}

// A machine of one vCPU and a page of zeros.
fn made(
    alloc: Global,
    vcpu: Vcpu,
    printed: usize,
    lost: u64,
    cmp: u64,
    clock: u64,
) -> Result<Machine, Fail> {
    let parts = booted(alloc, [1, 1, 1], b"", b"")?.into_parts();
    let mut bytes = Vec::new(alloc);
    for k in 0..printed {
        bytes.push((k % 256) as u8)?;
    }
    if parts.shape.vcpus() != 1
        || vcpu.pending()
        || clock > 1 << 63
        || bytes.len() > MAX_SERIAL_BYTES
    {
        Err(OutOfLimits)?;
    }
    let serial = Serial::of(alloc, &bytes, lost, b"")?;
    let vcpus = vec![in alloc; vcpu]?;
    Ok(Machine::of(parts.shape, parts.ram, vcpus, serial, Timer::of(cmp), clock))
}

fn save_of(end: SaveEnd, blocked: u64, faults: u32, sweep: u32) -> Option<SaveLine> {
    let counts = Counts { faults, sweep };
    Some(SaveLine {
        end,
        blocked,
        counts,
    })
}

#[test]
fn reports_of_guests_are_whole_and_have_no_input(rt: HostRuntime) -> Result<(), Fail> {
    let alloc = rt.alloc();
    for &(words, numbers, n, text) in &GUESTS {
        let machine = ran(alloc, numbers, words, b"unread", n)?;
        let mut sink = failing_at(alloc, 0)?;
        assert_eq!(rt; put(None, &machine, &mut sink), Ok(()));
        assert_eq!(rt; sink.bytes(), text.as_bytes());
    }
    Ok(())
}

#[test]
fn the_line_of_a_save_comes_first(rt: HostRuntime) -> Result<(), Fail> {
    let alloc = rt.alloc();
    let machine = ran(alloc, [1, 1, 1], &[0x0010_0293, 0x73], b"", 0)?;
    let mut sink = failing_at(alloc, 0)?;
    let complete = save_of(SaveEnd::Complete, 0, 0, 1);
    assert_eq!(rt; put(complete, &machine, &mut sink), Ok(()));
    assert_eq!(rt; sink.bytes(), ONE_PAGE.as_bytes());
    let mut sink = failing_at(alloc, 0)?;
    let failed = save_of(SaveEnd::Failed, u64::MAX, u32::MAX, u32::MAX - 1);
    assert_eq!(rt; put(failed, &machine, &mut sink), Ok(()));
    let line =
        "save failed blocked 18446744073709551615 faults 4294967295 sweep 4294967294\nclock 0\n";
    assert!(rt; sink.bytes().starts_with(line.as_bytes()));
    Ok(())
}

#[test]
fn the_greatest_numbers_have_all_their_digits(rt: HostRuntime) -> Result<(), Fail> {
    let alloc = rt.alloc();
    let mut regs = [0; 31];
    regs[0] = u64::MAX;
    regs[30] = 0xfedc_ba98_7654_3210;
    let vcpu = Vcpu::of(regs, u64::MAX - 3, u64::MAX, State::Running);
    let machine = made(alloc, vcpu, 0, u64::MAX, (1 << 63) + 1, 1 << 63)?;
    let mut sink = failing_at(alloc, 0)?;
    assert_eq!(rt; put(None, &machine, &mut sink), Ok(()));
    assert_eq!(rt; sink.bytes(), GREATEST.as_bytes());
    Ok(())
}

#[test]
fn a_halted_vcpu_has_the_word_of_its_cause(rt: HostRuntime) -> Result<(), Fail> {
    let alloc = rt.alloc();
    for &(cause, text) in &CAUSES {
        let vcpu = Vcpu::of([0; 31], 0, 0, State::Halted(cause));
        let machine = made(alloc, vcpu, 0, 0, 0, 0)?;
        let mut sink = failing_at(alloc, 0)?;
        assert_eq!(rt; put(None, &machine, &mut sink), Ok(()));
        assert!(rt; sink.bytes().starts_with(text.as_bytes()), "{text}");
    }
    Ok(())
}

#[test]
fn serial_bytes_stand_32_in_a_line(rt: HostRuntime) -> Result<(), Fail> {
    let alloc = rt.alloc();
    let front = "clock 0\ncpu 0 running pc 0000000000000000 steps 0\n";
    for &(printed, lost, text) in &SERIALS {
        let vcpu = Vcpu::of([0; 31], 0, 0, State::Running);
        let machine = made(alloc, vcpu, printed, lost, 0, 0)?;
        let mut sink = failing_at(alloc, 0)?;
        assert_eq!(rt; put(None, &machine, &mut sink), Ok(()));
        let behind = sink.bytes().strip_prefix(front.as_bytes());
        assert!(rt;
            behind.is_some_and(|rest| rest.starts_with(text.as_bytes())),
            "{text}"
        );
    }
    Ok(())
}

#[test]
fn a_full_serial_device_has_2048_lines(rt: HostRuntime) -> Result<(), Fail> {
    let alloc = rt.alloc();
    let machine = ran(alloc, [1, 1, 1], &PRINTS_TOO_MANY, b"", 200_000)?;
    let mut text = String::new(alloc);
    text.push_str("clock 262154\ncpu 0 ebreak pc 000000008000001c steps 196615\n")?;
    text.push_str("x5 0000000010000000\nserial 65536 lost 1\n")?;
    for _ in 0..2048 {
        for _ in 0..64 {
            text.push('0')?;
        }
        text.push('\n')?;
    }
    text.push_str("timer 0000000000000000\nram pages 1 nonzero 1 sum fe16a0b11058cc60\n")?;
    let mut sink = failing_at(alloc, 0)?;
    assert_eq!(rt; put(None, &machine, &mut sink), Ok(()));
    assert_eq!(rt; sink.bytes(), text.as_bytes());
    Ok(())
}

#[test]
fn a_failed_write_leaves_a_front_of_the_report(rt: HostRuntime) -> Result<(), Fail> {
    let alloc = rt.alloc();
    let machine = ran(alloc, [1, 1, 1], &[0x0010_0293, 0x73], b"", 0)?;
    let save = save_of(SaveEnd::Complete, 0, 0, 1);
    for call in 1..=4 {
        let mut sink = failing_at(alloc, call)?;
        assert_eq!(rt; put(save, &machine, &mut sink), Err(Failed), "at {call}");
        assert!(rt; ONE_PAGE.as_bytes().starts_with(sink.bytes()), "at {call}");
        assert!(rt; sink.bytes().len() < ONE_PAGE.len(), "at {call}");
    }
    let mut sink = failing_at(alloc, 5)?;
    assert_eq!(rt; put(save, &machine, &mut sink), Ok(()));
    Ok(())
}

#[test]
fn a_checked_file_has_a_line_of_its_shape(rt: HostRuntime) -> Result<(), Fail> {
    let alloc = rt.alloc();
    for (numbers, text) in [
        ([1, 1, 1], "ok vcpus 1 blocks 1 pages 1\n"),
        ([8, 7, 2048], "ok vcpus 8 blocks 7 pages 2048\n"),
    ] {
        let shape = Shape::new(numbers[0], numbers[1], numbers[2])?;
        let mut sink = failing_at(alloc, 0)?;
        assert_eq!(rt; put_shape(&shape, &mut sink), Ok(()));
        assert_eq!(rt; sink.bytes(), text.as_bytes());
        let mut sink = failing_at(alloc, 1)?;
        assert_eq!(rt; put_shape(&shape, &mut sink), Err(Failed));
        assert!(rt; sink.bytes().is_empty());
    }
    Ok(())
}
