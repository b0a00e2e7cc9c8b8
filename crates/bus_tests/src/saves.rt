ghost use Rattle.std.specs.Prelude.{◌≡◌, ◌≤◌, All};
ghost use Rattle.std.specs.Thread.{IsSync};
ghost use Rattle.page_bus.specs.Closing.{AreAllOf};
ghost use Rattle.page_bus.specs.Passes.{saver_key, vcpu_key};
ghost use Rattle.bus_tests.specs.Keys.{KeepsKeys};
ghost use Rattle.ram_block.specs.declared.limits.TheConstants.{MAX_PHASE};

use crate::guests::MEETS;
use crate::shared::{OutOfLimits, Shared, booted, started};
use flat_machine::Machine;
use page_bus::{Bus, SaverPass, VcpuPass};
use page_cell::{PageBuf, Pick, Taken};
use plain_bus::StepAnswer;
use ram_block::MAX_PHASE;
use std::alloc::Global;
use std::test::Fail;
use std::thread;
use std::thread::{Threads, join_mut, yield_now};

/// How often a worker tries: by then its test has failed.
const MOST_TURNS: u32 = 10_000_000;

/// Turns of a vCPU until its phase has ended.
fn run_vcpu(bus: &Bus, pass: &mut VcpuPass)
    requires { pass.old.table ≡ bus.now.table }
    ensures { vcpu_key pass.new ≡ vcpu_key pass.old }
{
    for _ in 0..MOST_TURNS {
        match bus.try_step(pass) {
            StepAnswer::Idle => return,
            StepAnswer::Done => {}
            StepAnswer::Stopped(_) | StepAnswer::Busy(_) => yield_now(),
        }
    }
}

/// Each vCPU in a thread.
fn run_vcpus<R: Threads + Sync>(rt: &R, bus: &Bus, passes: &mut Vec<VcpuPass>)
    requires { All (λ p. p.table ≡ bus.now.table) passes.old.items }
    ensures { KeepsKeys passes.old.items passes.new.items }
{
    thread::for_each_mut(
        rt,
        passes.as_mut_slice(),
        8,
        &|_, pass: &mut VcpuPass|
            requires { pass.now.table ≡ bus.now.table }
            ensures { vcpu_key pass.exit.now ≡ vcpu_key pass.entry.now }
        { run_vcpu(bus, pass) },
    );
}

/// Copies the page that a vCPU waits for, or else the next one in turn, and answers it where it was protected.
fn copy_next(bus: &Bus, saver: &mut SaverPass, next: &mut u32, into: &mut PageBuf) -> Option<u32>
    requires { saver.old.table ≡ bus.now.table }
    ensures { saver_key saver.new ≡ saver_key saver.old }
{
    let page = match bus.pick_as(saver) {
        Pick::Fault(page) => page,
        Pick::Empty => *next,
        Pick::Busy => return None,
    };
    if page >= saver.pages() {
        return None;
    }
    match bus.take_as(saver, page, into) {
        Taken::Copied => Some(page),
        Taken::Stale => {
            if page == *next {
                *next += 1;
            }
            None
        }
        Taken::Busy => None,
    }
}

/// Whether the page of the machine has these bytes.
fn has_page(machine: &Machine, page: u32, bytes: &PageBuf) -> bool {
    machine
        .pages()
        .get(page as usize)
        .is_some_and(|own| own.bytes() == bytes.bytes())
}

/// Copies each page, and answers how many had the bytes of the instant.
fn copy_all(bus: &Bus, saver: &mut SaverPass, instant: &Machine, into: &mut PageBuf) -> usize
    requires { saver.old.table ≡ bus.now.table }
    ensures { saver_key saver.new ≡ saver_key saver.old }
{
    let mut copied = 0;
    let mut next = 0;
    for _ in 0..MOST_TURNS {
        if next >= saver.pages() {
            return copied;
        }
        match copy_next(bus, saver, &mut next, into) {
            Some(page) => {
                if has_page(instant, page, into) {
                    copied += 1;
                }
            }
            None => yield_now(),
        }
    }
    copied
}

/// The saver in one thread beside the vCPUs in others.
#[tactic(auto, using(crate::proofs::Runs::all_run))]
fn run_beside<R: Threads + Sync>(rt: &R, shared: &mut Shared, into: &mut PageBuf) -> usize
    requires { AreAllOf shared.old.bus shared.old.passes.items shared.old.saver }
    ensures { AreAllOf shared.new.bus shared.new.passes.items shared.new.saver }
{
    let Shared {
        bus,
        passes,
        saver,
        start,
    } = shared;
    let (bus, start) = (&*bus, &*start);
    let (copied, ()) = join_mut(
        rt,
        &mut ||
            requires { saver.now.table ≡ bus.now.table }
            ensures { saver_key saver.exit.now ≡ saver_key saver.entry.now }
        { copy_all(bus, saver, start, into) },
        &mut ||
            requires { IsSync R.row × All (λ p. p.table ≡ bus.now.table) passes.now.items }
            ensures { KeepsKeys passes.entry.now.items passes.exit.now.items }
        { run_vcpus(rt, bus, passes) },
    );
    copied
}

/// Whether a phase of so many instructions of eight vCPUs beside a saver ends, with so many pages copied that have the bytes
/// of the instant, and is the run of its order.
fn is_run_beside<R: Threads + Sync>(rt: &R, alloc: Global, phase: Phase) -> Result<bool, Fail>
    requires { phase.run ≤ MAX_PHASE }
{
    let mut into = PageBuf::new(alloc)?;
    let machine = booted(alloc, 8, 10, &MEETS)?;
    let mut shared = started(alloc, machine, phase.run, phase.protect)?;
    let copied = run_beside(rt, &mut shared, &mut into);
    Ok(copied == phase.copied && shared.is_run_of(u64::from(phase.run)))
}

/// A phase: how many instructions it has, whether pages are protected, and how many are copied.
#[derive(Clone, Copy)]
struct Phase {
    run: u32,
    protect: bool,
    copied: usize,
}

#[rattlefmt::skip]
static PHASES: [Phase; 8] = [
    Phase { run: 0, protect: true, copied: 10 },
    Phase { run: 1, protect: true, copied: 10 },
    Phase { run: 11, protect: true, copied: 10 },
    Phase { run: 12, protect: true, copied: 10 },
    Phase { run: 13, protect: true, copied: 10 },
    Phase { run: 60, protect: true, copied: 10 },
    Phase { run: 13, protect: false, copied: 0 },
    Phase { run: 60, protect: false, copied: 0 },
];

#[test]
fn eight_vcpus_beside_a_saver_are_a_run_of_their_order(rt: HostRuntime) -> Result<(), Fail> {
    let alloc = rt.alloc();
    for phase in &PHASES {
        if phase.run > MAX_PHASE {
            Err(OutOfLimits)?;
        }
        assert!(rt; is_run_beside(&rt, alloc, *phase)?);
    }
    Ok(())
}
