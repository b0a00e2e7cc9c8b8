use super::*;
use flat_machine::Machine;
use page_cell::{PageBuf, Pick, Plant, Taken};
use ram_block::{MAX_PHASE, Shape};
use std::alloc::{AllocError, Global};
use std::test::Fail;

// A test asks for what a machine or a bus doesn't have.
#[derive(Debug, Drop)]
struct OutOfLimits;

// Stores the address of page 1 there.
const STORES: [u32; 2] = [
    0x00001297, // auipc x5, 1
    0x0052b023, // sd x5, 0(x5)
];

// Loads from page 1, and then swaps there.
const SWAPS: [u32; 3] = [
    0x00001297, // auipc x5, 1
    0x0002b303, // ld x6, 0(x5)
    0x0802b32f, // amoswap.d x6, x0, (x5)
];

// Each vCPU stores its number, vCPU 0 into page 1 and vCPU 1 into page 2.
const APART: [u32; 4] = [
    0x00001297, // auipc x5, 1
    0x00c51313, // slli x6, x10, 12
    0x006282b3, // add x5, x5, x6
    0x00a2b023, // sd x10, 0(x5)
];

// Each vCPU stores its number into page 1.
const TOGETHER: [u32; 2] = [
    0x00001297, // auipc x5, 1
    0x00a2b023, // sd x10, 0(x5)
];

// Stores into page 7.
const FAR: [u32; 2] = [
    0x00007297, // auipc x5, 7
    0x0052b023, // sd x5, 0(x5)
];

// Prints a byte.
const PRINTS: [u32; 2] = [
    0x100002b7, // lui x5, 0x10000
    0x00628023, // sb x6, 0(x5)
];

fn image_of(alloc: Global, words: &[u32]) -> Result<Vec<u8>, AllocError> {
    let mut bytes = Vec::new(alloc);
    for word in words {
        bytes.extend_from_slice(&word.to_le_bytes())?;
    }
    Ok(bytes)
}

// A bus over a booted machine, by the numbers of its shape and the instructions of its phase.
fn started(
    alloc: Global,
    words: &[u32],
    numbers: [u64; 3],
    run: u32,
    protect: bool,
) -> Result<PlainBus, Fail> {
    let shape = Shape::new(numbers[0], numbers[1], numbers[2])?;
    let image = image_of(alloc, words)?;
    if image.len() as u64 > shape.ram_bytes() || run > MAX_PHASE {
        Err(OutOfLimits)?;
    }
    let machine = Machine::boot(alloc, shape, &image, &[])?;
    if !machine.at_rest() {
        Err(OutOfLimits)?;
    }
    match PlainBus::start(alloc, machine, run, protect) {
        Ok(bus) => Ok(bus),
        Err((_, no_memory)) => Err(no_memory)?,
    }
}

fn tried(bus: &mut PlainBus, k: u32) -> Option<StepAnswer> {
    if k >= bus.shape().vcpus() {
        return None;
    }
    Some(bus.try_step(k))
}

// A call, with what it is to answer.
#[derive(Clone, Copy)]
enum Call {
    Step(u32, StepAnswer),
    Pick(Pick),
    Take(u32, Taken),
}

// Through the contract of every plant.
fn picked<P: Plant>(plant: &mut P) -> Pick
    requires { P.fits plant.old }
    ensures { P.fits plant.new }
{
    plant.pick()
}

fn taken(bus: &mut PlainBus, page: u32, into: &mut PageBuf) -> Option<Taken> {
    if page >= bus.shape().total_pages() {
        return None;
    }
    Some(bus.take(page, into))
}

fn front(bus: &mut PlainBus) -> Pick {
    let _limits = bus.shape();
    picked(bus)
}

fn byte(machine: &Machine, i: u64) -> Option<u8> {
    if i < machine.shape().ram_bytes() {
        Some(machine.byte(i))
    } else {
        None
    }
}

fn answers_so(bus: &mut PlainBus, into: &mut PageBuf, call: Call) -> bool {
    match call {
        Call::Step(k, wanted) => tried(bus, k) == Some(wanted),
        Call::Pick(wanted) => front(bus) == wanted,
        Call::Take(page, wanted) => taken(bus, page, into) == Some(wanted),
    }
}

// How many of the calls, from the first on, answer as they are to.
fn answered(bus: &mut PlainBus, into: &mut PageBuf, calls: &[Call]) -> usize {
    for (i, call) in calls.iter().enumerate() {
        if !answers_so(bus, into, *call) {
            return i;
        }
    }
    calls.len()
}

// What is stored goes on once its page is copied, and the pick of it comes too late.
static STOPPED_ONCE: [Call; 9] = [
    Call::Pick(Pick::Empty),
    Call::Step(0, StepAnswer::Done),
    Call::Step(0, StepAnswer::Done),
    Call::Step(0, StepAnswer::Stopped(1)),
    Call::Take(1, Taken::Copied),
    Call::Pick(Pick::Fault(1)),
    Call::Take(1, Taken::Stale),
    Call::Step(0, StepAnswer::Done),
    Call::Step(0, StepAnswer::Idle),
];

// A fetch from a protected page, and a load, are made; the AMO is not.
static STOPPED_AT_AMO: [Call; 5] = [
    Call::Step(0, StepAnswer::Done),
    Call::Step(0, StepAnswer::Done),
    Call::Step(0, StepAnswer::Done),
    Call::Step(0, StepAnswer::Done),
    Call::Step(0, StepAnswer::Stopped(1)),
];

static STOPPED_ON_ONE_PAGE: [Call; 9] = [
    Call::Step(0, StepAnswer::Done),
    Call::Step(0, StepAnswer::Done),
    Call::Step(1, StepAnswer::Done),
    Call::Step(1, StepAnswer::Done),
    Call::Step(0, StepAnswer::Stopped(1)),
    Call::Step(1, StepAnswer::Stopped(1)),
    Call::Pick(Pick::Fault(1)),
    Call::Pick(Pick::Empty),
    Call::Step(1, StepAnswer::Stopped(1)),
];

static STOPPED_APART: [Call; 14] = [
    Call::Step(0, StepAnswer::Done),
    Call::Step(0, StepAnswer::Done),
    Call::Step(0, StepAnswer::Done),
    Call::Step(0, StepAnswer::Done),
    Call::Step(1, StepAnswer::Done),
    Call::Step(1, StepAnswer::Done),
    Call::Step(1, StepAnswer::Done),
    Call::Step(1, StepAnswer::Done),
    Call::Step(1, StepAnswer::Stopped(2)),
    Call::Step(0, StepAnswer::Stopped(1)),
    Call::Step(1, StepAnswer::Stopped(2)),
    Call::Pick(Pick::Fault(2)),
    Call::Pick(Pick::Fault(1)),
    Call::Pick(Pick::Empty),
];

static STOPPED_IN_THE_LAST_BLOCK: [Call; 5] = [
    Call::Step(0, StepAnswer::Done),
    Call::Step(0, StepAnswer::Done),
    Call::Step(0, StepAnswer::Stopped(7)),
    Call::Take(7, Taken::Copied),
    Call::Step(0, StepAnswer::Done),
];

static NEVER_STOPPED: [Call; 4] = [
    Call::Step(0, StepAnswer::Done),
    Call::Step(0, StepAnswer::Done),
    Call::Step(0, StepAnswer::Done),
    Call::Step(0, StepAnswer::Idle),
];

#[test]
fn a_stopped_store_is_made_once_its_page_is_copied(rt: HostRuntime) -> Result<(), Fail> {
    let alloc = rt.alloc();
    let mut bus = started(alloc, &STORES, [1, 1, 2], 2, true)?;
    let mut into = PageBuf::of_bytes(alloc, &[0x51])?;
    assert_eq!(rt; answered(&mut bus, &mut into, &STOPPED_ONCE), 9);
    assert!(rt; into.bytes().iter().all(|byte| *byte == 0));
    assert_eq!(rt; bus.blocked(), 1);
    let closed = bus.close();
    assert_eq!(rt; closed.machine.clock(), 3);
    assert_eq!(rt; byte(&closed.machine, 0x1001), Some(0x10));
    for (i, wanted) in [(0, Some(0)), (1, Some(0)), (2, Some(0)), (3, None)] {
        assert_eq!(rt; closed.order.get(i), wanted);
    }
    Ok(())
}

#[test]
fn an_amo_is_stopped_and_a_load_is_not(rt: HostRuntime) -> Result<(), Fail> {
    let alloc = rt.alloc();
    let mut bus = started(alloc, &SWAPS, [1, 1, 2], 3, true)?;
    let mut into = PageBuf::new(alloc)?;
    assert_eq!(rt; answered(&mut bus, &mut into, &STOPPED_AT_AMO), 5);
    Ok(())
}

#[test]
fn two_vcpus_stopped_on_one_page_queue_it_once(rt: HostRuntime) -> Result<(), Fail> {
    let alloc = rt.alloc();
    let mut bus = started(alloc, &TOGETHER, [2, 1, 2], 2, true)?;
    let mut into = PageBuf::new(alloc)?;
    assert_eq!(rt; answered(&mut bus, &mut into, &STOPPED_ON_ONE_PAGE), 9);
    assert_eq!(rt; bus.blocked(), 3);
    Ok(())
}

#[test]
fn the_page_that_was_queued_first_is_picked_first(rt: HostRuntime) -> Result<(), Fail> {
    let alloc = rt.alloc();
    let mut bus = started(alloc, &APART, [2, 1, 3], 4, true)?;
    let mut into = PageBuf::new(alloc)?;
    assert_eq!(rt; answered(&mut bus, &mut into, &STOPPED_APART), 14);
    Ok(())
}

#[test]
fn pages_count_over_eight_blocks(rt: HostRuntime) -> Result<(), Fail> {
    let alloc = rt.alloc();
    let mut bus = started(alloc, &FAR, [1, 8, 1], 2, true)?;
    let mut into = PageBuf::new(alloc)?;
    assert_eq!(rt;
        answered(&mut bus, &mut into, &STOPPED_IN_THE_LAST_BLOCK),
        5
    );
    assert_eq!(rt; byte(&bus.close().machine, 0x7001), Some(0x70));
    Ok(())
}

#[test]
fn a_device_stops_no_store(rt: HostRuntime) -> Result<(), Fail> {
    let alloc = rt.alloc();
    let mut bus = started(alloc, &PRINTS, [1, 1, 1], 2, true)?;
    let mut into = PageBuf::new(alloc)?;
    assert_eq!(rt; answered(&mut bus, &mut into, &NEVER_STOPPED), 4);
    assert_eq!(rt; bus.close().machine.serial().bytes(), [0].as_slice());
    Ok(())
}

#[test]
fn an_unprotected_bus_stops_nothing(rt: HostRuntime) -> Result<(), Fail> {
    let alloc = rt.alloc();
    let mut bus = started(alloc, &STORES, [1, 1, 2], 2, false)?;
    let mut into = PageBuf::of_bytes(alloc, &[0x51])?;
    assert_eq!(rt; answered(&mut bus, &mut into, &NEVER_STOPPED), 4);
    assert_eq!(rt; taken(&mut bus, 0, &mut into), Some(Taken::Stale));
    assert!(rt; into.bytes().first() == Some(&0x51));
    assert_eq!(rt; bus.blocked(), 0);
    Ok(())
}
