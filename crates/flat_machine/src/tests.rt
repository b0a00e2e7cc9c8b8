use super::*;
use ram_block::{Cause, MAX_INPUT, Shape};
use rv64i_step::{State, Vcpu};
use std::alloc::{AllocError, Global};
use std::test::Fail;

// A test asks for what a machine doesn't have.
#[derive(Debug, Drop)]
struct OutOfLimits;

// The words are those that an outside assembler makes of the statements.

// Loads the time twice, and stores what it loaded first into page 1.
const TIMES: [u32; 5] = [
    0x02000337, // lui x6, 0x2000
    0x00033383, // ld x7, 0(x6)
    0x00001297, // auipc x5, 0x1
    0x0072b023, // sd x7, 0(x5)
    0x00033403, // ld x8, 0(x6)
];

// Stores 0 into the instruction behind the store.
const INTO_NEXT: [u32; 3] = [
    0x00000297, // auipc x5, 0x0
    0x0002a423, // sw x0, 8(x5)
    0x00700313, // addi x6, x0, 7
];

// An AMO at the timer.
const AMO_AT_TIMER: [u32; 3] = [
    0x020002b7, // lui x5, 0x2000
    0x00828293, // addi x5, x5, 8
    0x0802b32f, // amoswap.d x6, x0, (x5)
];

// Prints 65,537 bytes, one more than the serial device keeps.
const PRINTS_TOO_MANY: [u32; 8] = [
    0x100002b7, // lui x5, 0x10000
    0x00010337, // lui x6, 0x10
    0x00130313, // addi x6, x6, 1
    0x00028023, // sb x0, 0(x5)
    0xfff30313, // addi x6, x6, -1
    0xfe031ce3, // bne x6, x0, -8
    0x0052c383, // lbu x7, 5(x5)
    0x00100073, // ebreak
];

// Prints every other letter: vCPU 0 from A on, and vCPU 1 the letter B alone.
const PRINTS_LETTERS: [u32; 6] = [
    0x100002b7, // lui x5, 0x10000
    0x04150313, // addi x6, x10, 65
    0x00628023, // sb x6, 0(x5)
    0x00230313, // addi x6, x6, 2
    0xfe050ce3, // beq x10, x0, -8
    0x00100073, // ebreak
];

// Reads two bytes of input, and then the status.
const READS: [u32; 4] = [
    0x100002b7, // lui x5, 0x10000
    0x0002c303, // lbu x6, 0(x5)
    0x0002c383, // lbu x7, 0(x5)
    0x0052c403, // lbu x8, 5(x5)
];

const EBREAK: [u32; 1] = [0x00100073];

// Image, vCPUs, blocks, pages and instructions; then the clock, and the last vCPU's state, pc and steps.
#[rattlefmt::skip]
static PHASES: [(&[u32], [u64; 3], u32, u64, (State, u64, u64)); 6] = [
    (&TIMES, [1, 1, 2], 5, 8, (State::Running, 0x8000_0014, 5)),
    (&EBREAK, [8, 8, 2048], 1, 8, (State::Halted(Cause::Ebreak), 0x8000_0000, 0)),
    (&AMO_AT_TIMER, [1, 1, 1], 3, 3, (State::Halted(Cause::StoreOutside), 0x8000_0008, 2)),
    (&INTO_NEXT, [1, 1, 1], 3, 4, (State::Halted(Cause::Illegal), 0x8000_0008, 2)),
    (&PRINTS_TOO_MANY, [1, 1, 1], 200_000, 262_154, (State::Halted(Cause::Ebreak), 0x8000_001c, 196_615)),
    (&TIMES, [1, 1, 2], 0, 0, (State::Running, 0x8000_0000, 0)),
];

// The first word, its statement, and the instructions; then why the guest halts, and where.
#[rattlefmt::skip]
static HALTS: [(u32, &str, u32, Cause, u64); 9] = [
    (0x00000067, "jalr x0, 0(x0)", 2, Cause::FetchOutside, 0),
    (0x00000000, ".word 0", 1, Cause::Illegal, 0x8000_0000),
    (0x00000163, "beq x0, x0, 2", 1, Cause::JumpMisaligned, 0x8000_0000),
    (0x00103283, "ld x5, 1(x0)", 1, Cause::LoadMisaligned, 0x8000_0000),
    (0x00003283, "ld x5, 0(x0)", 1, Cause::LoadOutside, 0x8000_0000),
    (0x00002123, "sw x0, 2(x0)", 1, Cause::StoreMisaligned, 0x8000_0000),
    (0x00000023, "sb x0, 0(x0)", 1, Cause::StoreOutside, 0x8000_0000),
    (0x00000073, "ecall", 1, Cause::Ecall, 0x8000_0000),
    (0x00100073, "ebreak", 1, Cause::Ebreak, 0x8000_0000),
];

// The clock, the steps of the vCPU, and whether the machine rests.
static RESTS: [(u64, u64, bool); 4] = [
    (4_611_686_018_427_387_904, 0, true),
    (4_611_686_018_427_387_905, 0, false),
    (0, 4_611_686_018_427_387_904, true),
    (0, 4_611_686_018_427_387_905, false),
];

fn image_of(alloc: Global, words: &[u32]) -> Result<Vec<u8>, AllocError> {
    let mut bytes = Vec::new(alloc);
    for word in words {
        bytes.extend_from_slice(&word.to_le_bytes())?;
    }
    Ok(bytes)
}

fn booted(alloc: Global, numbers: &[u64; 3], words: &[u32], input: &[u8]) -> Result<Machine, Fail> {
    let shape = Shape::new(numbers[0], numbers[1], numbers[2])?;
    let image = image_of(alloc, words)?;
    if image.len() as u64 > shape.ram_bytes() || input.len() > MAX_INPUT {
        Err(OutOfLimits)?;
    }
    Ok(Machine::boot(alloc, shape, &image, input)?)
}

// The same machine, with one vCPU of this pc and these steps, and another clock.
fn moved_to(alloc: Global, m: Machine, pc: u64, steps: u64, clock: u64) -> Result<Machine, Fail> {
    let parts = m.into_parts();
    if parts.shape.vcpus() != 1 || clock > 1 << 63 {
        Err(OutOfLimits)?;
    }
    let vcpus = vec![in alloc; Vcpu::of([0; 31], pc, steps, State::Running)]?;
    Ok(Machine::of(
        parts.shape,
        parts.ram,
        vcpus,
        parts.serial,
        parts.timer,
        clock,
    ))
}

fn phase(alloc: Global, m: &mut Machine, n: u32) -> Result<Order, Fail> {
    if n > 1_000_000 || !m.at_rest() {
        Err(OutOfLimits)?;
    }
    Ok(m.rounds(alloc, n)?)
}

fn stepped(m: &mut Machine, k: u32) -> Option<Stepped> {
    let many = 1 << 62;
    if k >= m.shape().vcpus() || m.clock() > many || m.vcpu(k).steps() > many {
        return None;
    }
    Some(m.step(k))
}

// Where a vCPU is, and how many instructions it has finished.
fn seen(m: &Machine, k: u32) -> Option<(State, u64, u64)> {
    if k >= m.shape().vcpus() {
        return None;
    }
    let vcpu = m.vcpu(k);
    Some((vcpu.state(), vcpu.pc(), vcpu.steps()))
}

// What is in x5 to x8 of vCPU 0.
fn registers(m: &Machine) -> Option<[u64; 4]> {
    if m.shape().vcpus() == 0 {
        return None;
    }
    let vcpu = m.vcpu(0);
    Some([vcpu.reg(5), vcpu.reg(6), vcpu.reg(7), vcpu.reg(8)])
}

fn byte(m: &Machine, i: u64) -> Option<u8> {
    if i < m.shape().ram_bytes() {
        Some(m.byte(i))
    } else {
        None
    }
}

#[test]
fn phases_end_where_the_instructions_say(rt: HostRuntime) -> Result<(), Fail> {
    let alloc = rt.alloc();
    for (words, numbers, n, clock, wanted) in &PHASES {
        let mut m = booted(alloc, numbers, words, &[])?;
        let order = phase(alloc, &mut m, *n)?;
        assert_eq!(rt; m.clock(), *clock);
        assert_eq!(rt; order.count() as u64, *clock);
        let last = m.shape().vcpus() - 1;
        assert_eq!(rt; seen(&m, last), Some(*wanted));
    }
    Ok(())
}

#[test]
fn each_cause_of_a_booted_guest_halts_it(rt: HostRuntime) -> Result<(), Fail> {
    let alloc = rt.alloc();
    for &(word, text, n, cause, pc) in &HALTS {
        let mut m = booted(alloc, &[1, 1, 1], &[word], &[])?;
        phase(alloc, &mut m, n)?;
        assert_eq!(rt; m.clock(), u64::from(n), "at {text}");
        let wanted = (State::Halted(cause), pc, u64::from(n) - 1);
        assert_eq!(rt; seen(&m, 0), Some(wanted), "at {text}");
    }
    Ok(())
}

// No jump leads there, and so no booted guest.
#[test]
fn a_vcpu_that_starts_inside_a_word_halts(rt: HostRuntime) -> Result<(), Fail> {
    let alloc = rt.alloc();
    let m = booted(alloc, &[1, 1, 1], &EBREAK, &[])?;
    let mut m = moved_to(alloc, m, 0x8000_0002, 0, 0)?;
    phase(alloc, &mut m, 1)?;
    assert_eq!(rt; m.clock(), 1);
    let wanted = (State::Halted(Cause::FetchMisaligned), 0x8000_0002, 0);
    assert_eq!(rt; seen(&m, 0), Some(wanted));
    Ok(())
}

#[test]
fn two_vcpus_print_in_the_order_of_the_rounds(rt: HostRuntime) -> Result<(), Fail> {
    let alloc = rt.alloc();
    let mut m = booted(alloc, &[2, 1, 1], &PRINTS_LETTERS, &[])?;
    let order = phase(alloc, &mut m, 9)?;
    assert_eq!(rt; m.serial().bytes(), b"ABCE".as_slice());
    assert_eq!(rt; order.count(), 19);
    for (i, wanted) in [
        (0, Some(0)),
        (1, Some(1)),
        (13, Some(1)),
        (14, Some(0)),
        (18, Some(0)),
        (19, None),
    ] {
        assert_eq!(rt; order.get(i), wanted, "at {i}");
    }
    Ok(())
}

#[test]
fn a_full_serial_device_loses_and_says_so(rt: HostRuntime) -> Result<(), Fail> {
    let alloc = rt.alloc();
    let mut m = booted(alloc, &[1, 1, 1], &PRINTS_TOO_MANY, &[])?;
    phase(alloc, &mut m, 200_000)?;
    assert_eq!(rt; m.serial().bytes().len(), 65_536);
    assert_eq!(rt; m.serial().lost(), 1);
    assert_eq!(rt; registers(&m), Some([0x1000_0000, 0, 0, 0]));
    Ok(())
}

#[test]
fn a_guest_reads_its_input(rt: HostRuntime) -> Result<(), Fail> {
    let alloc = rt.alloc();
    let mut m = booted(alloc, &[1, 1, 1], &READS, b"Ab")?;
    phase(alloc, &mut m, 4)?;
    assert_eq!(rt; m.clock(), 7);
    assert_eq!(rt; registers(&m), Some([0x1000_0000, 0x41, 0x62, 0x20]));
    Ok(())
}

#[test]
fn a_copy_and_a_machine_of_the_parts_are_the_same(rt: HostRuntime) -> Result<(), Fail> {
    let alloc = rt.alloc();
    let mut m = booted(alloc, &[1, 1, 2], &TIMES, &[])?;
    phase(alloc, &mut m, 5)?;
    let copy = m.copy(alloc)?;
    let parts = m.into_parts();
    let again = Machine::of(
        parts.shape,
        parts.ram,
        parts.vcpus,
        parts.serial,
        parts.timer,
        parts.clock,
    );
    for machine in [&copy, &again] {
        assert_eq!(rt; machine.clock(), 8);
        assert_eq!(rt; registers(machine), Some([0x8000_1008, 0x200_0000, 2, 7]));
        assert_eq!(rt; byte(machine, 0x1008), Some(2));
        assert_eq!(rt; byte(machine, 0x1009), Some(0));
        assert_eq!(rt; machine.pages().len(), 2);
    }
    Ok(())
}

#[test]
fn a_machine_with_an_access_to_make_is_not_at_rest(rt: HostRuntime) -> Result<(), Fail> {
    let alloc = rt.alloc();
    let mut m = booted(alloc, &[1, 1, 2], &TIMES, &[])?;
    for rest in [true, false, true] {
        assert_eq!(rt; stepped(&mut m, 0), Some(Stepped::Event));
        assert_eq!(rt; m.at_rest(), rest, "at {}", m.clock());
    }
    Ok(())
}

#[test]
fn a_machine_rests_up_to_a_clock_and_steps_of_2_to_62(rt: HostRuntime) -> Result<(), Fail> {
    let alloc = rt.alloc();
    for (clock, steps, rests) in &RESTS {
        let m = booted(alloc, &[1, 1, 1], &EBREAK, &[])?;
        let m = moved_to(alloc, m, 0x8000_0000, *steps, *clock)?;
        assert_eq!(rt; m.at_rest(), *rests, "at {clock} and {steps}");
    }
    Ok(())
}

#[test]
fn a_halted_vcpu_makes_no_event(rt: HostRuntime) -> Result<(), Fail> {
    let alloc = rt.alloc();
    let mut m = booted(alloc, &[1, 1, 1], &EBREAK, &[])?;
    assert_eq!(rt; stepped(&mut m, 0), Some(Stepped::Event));
    assert_eq!(rt; stepped(&mut m, 0), Some(Stepped::Halted));
    assert_eq!(rt; m.clock(), 1);
    let room = Order::with_room(alloc, 3)?;
    assert_eq!(rt; room.count(), 0);
    assert_eq!(rt; Order::empty(alloc).count(), 0);
    Ok(())
}
