ghost use Rattle.std.specs.Prelude.{◌≡◌, All};
ghost use Rattle.page_bus.specs.Closing.{AreAllOf};
ghost use Rattle.page_bus.specs.Passes.{saver_key, vcpu_key};
ghost use Rattle.bus_tests.specs.Keys.{KeepsKeys};

use crate::guests::MEETS;
use crate::shared::{Shared, booted, started};
use page_bus::{Bus, SaverPass, VcpuPass};
use page_cell::{PageBuf, Taken};
use plain_bus::StepAnswer;
use std::alloc::Global;
use std::sync::atomic::{AtomicBool, Ordering};
use std::test::Fail;
use std::thread::{Threads, join_mut, yield_now};

/// How long the phase is, and how often a worker tries: by then its test has failed.
const MOST_INSTRUCTIONS: u32 = 1_000_000;

const MOST_TURNS: u32 = 10_000_000;

/// What two workers tell each other: that the saver's has begun, and that one of them found a cell held.
#[derive(Drop)]
struct Meeting {
    begun: AtomicBool,
    met: AtomicBool,
}

impl Meeting {
    fn note(&self, held: bool) -> u64 {
        if held {
            self.met.store(true, Ordering::SeqCst);
        }
        u64::from(held)
    }

    fn is_over(&self) -> bool {
        self.met.load(Ordering::SeqCst)
    }

    /// Waits until the saver's worker has begun.
    fn wait(&self) {
        for _ in 0..MOST_TURNS {
            if self.begun.load(Ordering::SeqCst) {
                return;
            }
            yield_now();
        }
    }
}

/// Events of a vCPU that fetches from page 0 until one of the workers has found a cell held. How often it was this one.
fn fetch_until_met(bus: &Bus, pass: &mut VcpuPass, meeting: &Meeting) -> u64
    requires { pass.old.table ≡ bus.now.table }
    ensures { vcpu_key pass.new ≡ vcpu_key pass.old }
{
    meeting.wait();
    let mut held = 0u64;
    for _ in 0..MOST_TURNS {
        if meeting.is_over() {
            return held;
        }
        let answer = bus.try_step(pass);
        held = held.saturating_add(meeting.note(matches!(answer, StepAnswer::Busy(0))));
        if let StepAnswer::Idle = answer {
            return held;
        }
    }
    held
}

/// Takes of page 0 until one of the workers has found a cell held. How often it was this one.
fn take_until_met(bus: &Bus, saver: &mut SaverPass, into: &mut PageBuf, meeting: &Meeting) -> u64
    requires { saver.old.table ≡ bus.now.table }
    ensures { saver_key saver.new ≡ saver_key saver.old }
{
    let mut held = 0u64;
    for _ in 0..MOST_TURNS {
        if meeting.is_over() || saver.pages() == 0 {
            return held;
        }
        let answer = bus.take_as(saver, 0, into);
        meeting.begun.store(true, Ordering::SeqCst);
        held = held.saturating_add(meeting.note(answer == Taken::Busy));
    }
    held
}

/// The same with the first of the passes.
fn first_until_met(bus: &Bus, passes: &mut Vec<VcpuPass>, meeting: &Meeting) -> u64
    requires { All (λ p. p.table ≡ bus.now.table) passes.old.items }
    ensures { KeepsKeys passes.old.items passes.new.items }
{
    if passes.is_empty() {
        return 0;
    }
    fetch_until_met(bus, &mut passes[0], meeting)
}

/// The saver in one thread and a vCPU in another. How often each found page 0 held.
#[tactic(auto, using(crate::proofs::Runs::all_run))]
fn meet<R: Threads + Sync>(
    rt: &R,
    shared: &mut Shared,
    into: &mut PageBuf,
    meeting: &Meeting,
) -> (u64, u64)
    requires { AreAllOf shared.old.bus shared.old.passes.items shared.old.saver }
    ensures { AreAllOf shared.new.bus shared.new.passes.items shared.new.saver }
{
    let Shared {
        bus,
        passes,
        saver,
        ..
    } = shared;
    let bus = &*bus;
    join_mut(
        rt,
        &mut ||
            requires { saver.now.table ≡ bus.now.table }
            ensures { saver_key saver.exit.now ≡ saver_key saver.entry.now }
        { take_until_met(bus, saver, into, meeting) },
        &mut ||
            requires { All (λ p. p.table ≡ bus.now.table) passes.now.items }
            ensures { KeepsKeys passes.entry.now.items passes.exit.now.items }
        { first_until_met(bus, passes, meeting) },
    )
}

/// Whether the passes count just these findings of the saver and the first vCPU, one of them at least.
fn are_counted(shared: &Shared, held: (u64, u64)) -> bool {
    match shared.passes.first() {
        Some(pass) => {
            shared.saver.busy() == held.0 && pass.busy() == held.1 && held.0 | held.1 != 0
        }
        None => false,
    }
}

/// Whether one of the two finds page 0 held, and its pass counts that. No page is protected, so nothing stops the vCPU.
fn finds_held<R: Threads + Sync>(rt: &R, alloc: Global) -> Result<bool, Fail> {
    let mut into = PageBuf::new(alloc)?;
    let mut shared = started(
        alloc,
        booted(alloc, 1, 10, &MEETS)?,
        MOST_INSTRUCTIONS,
        false,
    )?;
    let meeting = Meeting {
        begun: AtomicBool::new(false),
        met: AtomicBool::new(false),
    };
    let held = meet(rt, &mut shared, &mut into, &meeting);
    Ok(are_counted(&shared, held))
}

#[test]
fn a_page_that_another_pass_holds_is_found_so(rt: HostRuntime) -> Result<(), Fail> {
    let alloc = rt.alloc();
    assert!(rt; finds_held(&rt, alloc)?);
    Ok(())
}
