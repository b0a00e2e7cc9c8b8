use crate::phase::{booted, failing_from, ran, saved};
use bg_saver::{PhaseOut, SaveEnd};
use flat_machine::Machine;
use loader::load;
use ram_block::NoGate;
use std::alloc::Global;
use std::sync::Wait;
use std::test::Fail;
use std::thread::Threads;

/// Stores the address of page 1 there, over and over.
const STORES: [u8; 12] = [
    0x97, 0x12, 0x00, 0x00, // auipc x5, 1
    0x23, 0xb0, 0x52, 0x00, // sd x5, 0(x5)
    0x6f, 0xf0, 0xdf, 0xff, // jal x0, -4
];

/// How many bytes the file of two pages has.
const WHOLE: u64 = 1_057_168;

/// How many events four instructions of the guest have: two of them are stores.
const EVENTS: usize = 6;

/// The second byte of page 1, which the guest makes 0x10.
fn stored(machine: &Machine) -> Option<u8> {
    if 4097 >= machine.shape().ram_bytes() {
        return None;
    }
    Some(machine.byte(4097))
}

/// How many pages a save counted.
fn pages(out: &PhaseOut) -> u32 {
    out.counts.faults.saturating_add(out.counts.sweep)
}

/// Whether a save on threads is complete, the guest ran on beside it, and its file loads back as the machine at boot.
fn loads_back<R: Threads + Wait + Sync>(rt: &R, alloc: Global) -> Result<bool, Fail> {
    let mut file = failing_from(alloc, WHOLE, None)?;
    let machine = booted(alloc, 1, 2, &STORES)?;
    let Some(out) = saved(rt, alloc, machine, &mut file, &NoGate)? else {
        return Ok(false);
    };
    let Ok(instant) = load(alloc, &mut file) else {
        return Ok(false);
    };
    Ok(
        out.saved == Some(SaveEnd::Complete)
            && pages(&out) == 2
            && out.order.count() == EVENTS
            && stored(&out.machine) == Some(0x10)
            && instant.clock() == 0
            && stored(&instant) == Some(0),
    )
}

/// Whether a save on threads, in which each call on the file from this number on fails, ends so beside a whole phase.
fn ends_so<R: Threads + Wait + Sync>(
    rt: &R,
    alloc: Global,
    call: Option<u64>,
    end: SaveEnd,
) -> Result<bool, Fail> {
    let mut file = failing_from(alloc, WHOLE, call)?;
    let machine = booted(alloc, 1, 2, &STORES)?;
    let Some(out) = saved(rt, alloc, machine, &mut file, &NoGate)? else {
        return Ok(false);
    };
    Ok(out.saved == Some(end) && out.order.count() == EVENTS && pages(&out) <= 2)
}

/// Whether a phase without a save runs each of two vCPUs, and saves and counts nothing.
fn runs_both<R: Threads + Wait + Sync>(rt: &R, alloc: Global) -> Result<bool, Fail> {
    let out = ran(rt, alloc, booted(alloc, 2, 2, &STORES)?)?;
    Ok(
        out.saved.is_none()
            && out.blocked == 0
            && pages(&out) == 0
            && out.order.count() == 2 * EVENTS
            && out.machine.clock() == 12,
    )
}

#[test]
fn a_save_on_threads_loads_back(rt: HostRuntime) -> Result<(), Fail> {
    let whole = loads_back(&rt, rt.alloc())?;
    assert!(rt; whole);
    Ok(())
}

/// The first call that fails, and how the save then ends; with none it is complete.
static CUT_AT: [(Option<u64>, SaveEnd); 4] = [
    (Some(4), SaveEnd::Failed),
    (Some(6), SaveEnd::Failed),
    (Some(9), SaveEnd::Failed),
    (None, SaveEnd::Complete),
];

#[test]
fn a_phase_comes_to_its_end_where_its_save_fails(rt: HostRuntime) -> Result<(), Fail> {
    for (call, end) in &CUT_AT {
        let whole = ends_so(&rt, rt.alloc(), *call, *end)?;
        assert!(rt; whole);
    }
    Ok(())
}

#[test]
fn a_phase_without_a_save_runs_each_vcpu(rt: HostRuntime) -> Result<(), Fail> {
    let whole = runs_both(&rt, rt.alloc())?;
    assert!(rt; whole);
    Ok(())
}
