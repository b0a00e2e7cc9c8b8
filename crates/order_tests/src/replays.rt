use crate::files::order_of;
use flat_machine::Machine;
use order_log::replay;
use ram_block::Shape;
use rv64i_step::Vcpu;
use std::alloc::Global;
use std::test::Fail;

/// Stores the number of its vCPU into page 1: auipc x5, 1 and sd x10, 0(x5).
const STORES: [u8; 8] = [0x97, 0x12, 0x00, 0x00, 0x23, 0xb0, 0xa2, 0x00];

/// ebreak.
const HALTS: [u8; 4] = [0x73, 0x00, 0x10, 0x00];

/// The text of the order 0 0 1 1 0 1.
const WHOLE: [u8; 23] = [
    0x52, 0x56, 0x4f, 0x52, 0, 0, 0, 1, 0, 0, 0, 2, 0, 0, 0, 0, 0, 0, 0, 6, 0x00, 0x11, 0x10,
];

/// The text of the order of no member.
const EMPTY: [u8; 20] = [
    0x52, 0x56, 0x4f, 0x52, 0, 0, 0, 1, 0, 0, 0, 2, 0, 0, 0, 0, 0, 0, 0, 0,
];

/// The text of the order 0 0.
const TWICE: [u8; 21] = [
    0x52, 0x56, 0x4f, 0x52, 0, 0, 0, 1, 0, 0, 0, 2, 0, 0, 0, 0, 0, 0, 0, 2, 0x00,
];

/// A machine of two vCPUs and two pages that can't be made, or isn't at rest.
#[derive(Debug, Drop)]
struct NoMachine;

/// A machine of two vCPUs and two pages at boot.
fn booted(alloc: Global, image: &[u8]) -> Result<Machine, Fail> {
    let shape = Shape::new(2, 1, 2)?;
    if image.len() > 8192 {
        Err(NoMachine)?;
    }
    Ok(Machine::boot(alloc, shape, image, &[])?)
}

/// What the replay of the order of a text leaves of a machine, and the place at which it stopped.
fn replayed(alloc: Global, machine: Machine, text: &[u8]) -> Result<(Machine, Option<u64>), Fail> {
    if machine.shape().vcpus() != 2 || !machine.at_rest() {
        Err(NoMachine)?;
    }
    let order = order_of(alloc, text, 2)?;
    match replay(machine, &order) {
        Ok(last) => Ok((last, None)),
        Err((before, place)) => Ok((before, Some(place))),
    }
}

/// What the machine of a guest is after the order of a text: how many events there were, and where the replay stopped.
fn ends(alloc: Global, image: &[u8], text: &[u8]) -> Result<(u64, Option<u64>), Fail> {
    let (machine, place) = replayed(alloc, booted(alloc, image)?, text)?;
    Ok((machine.clock(), place))
}

/// Whether a vCPU has finished both instructions of the guest that stores.
fn has_stored(vcpu: &Vcpu) -> bool {
    vcpu.steps() == 2 && vcpu.pc() == 0x8000_0008 && vcpu.reg(5) == 0x8000_1000
}

#[test]
fn each_member_makes_an_event(rt: HostRuntime) -> Result<(), Fail> {
    let alloc = rt.alloc();
    let (machine, place) = replayed(alloc, booted(alloc, &STORES)?, &WHOLE)?;
    assert!(rt; place.is_none());
    assert!(rt; machine.clock() == 6);
    assert!(rt; machine.shape().vcpus() == 2 && machine.shape().ram_bytes() == 8192);
    assert!(rt; has_stored(machine.vcpu(0)));
    assert!(rt; has_stored(machine.vcpu(1)));
    assert!(rt; machine.byte(4096) == 1);
    Ok(())
}

#[test]
fn an_order_of_no_member_makes_no_event(rt: HostRuntime) -> Result<(), Fail> {
    let alloc = rt.alloc();
    let (clock, place) = ends(alloc, &STORES, &EMPTY)?;
    assert!(rt; clock == 0 && place.is_none());
    Ok(())
}

#[test]
fn a_replay_stops_at_a_vcpu_that_is_halted(rt: HostRuntime) -> Result<(), Fail> {
    let alloc = rt.alloc();
    let (machine, first) = replayed(alloc, booted(alloc, &HALTS)?, &TWICE)?;
    assert!(rt; first == Some(1));
    assert!(rt; machine.clock() == 1);
    let (machine, second) = replayed(alloc, machine, &TWICE)?;
    assert!(rt; second == Some(0));
    assert!(rt; machine.clock() == 1);
    Ok(())
}
