ghost use Rattle.std.specs.Prelude.{IfOk};
ghost use Rattle.page_bus.specs.Closing.{AreAllOf};

use crate::{Bus, SaverPass, VcpuPass};
use flat_machine::Machine;
use page_cell::{PageBuf, Pick, Taken};
use plain_bus::{Closed, StepAnswer};
use ram_block::Shape;
use std::alloc::{AllocError, Global};
use std::test::Fail;

// A test asks for what a machine or a bus doesn't have.
#[derive(Debug, Drop)]
struct OutOfLimits;

// Stores the address of page 1 there: auipc x5, 1; sd x5, 0(x5).
static STORES: [u8; 8] = [0x97, 0x12, 0x00, 0x00, 0x23, 0xb0, 0x52, 0x00];

// A bus with all its passes.
#[derive(Drop)]
struct Shared {
    bus: Bus,
    passes: Vec<VcpuPass>,
    saver: SaverPass,
}

// A bus over a machine of one vCPU and two pages that boots with the guest, for a phase of two instructions.
fn started(alloc: Global, protect: bool) -> Result<Shared, Fail>
    ensures { IfOk result (λ s. AreAllOf s.bus s.passes.items s.saver) }
{
    let shape = Shape::new(1, 1, 2)?;
    if shape.ram_bytes() < 8 {
        Err(OutOfLimits)?;
    }
    let machine = Machine::boot(alloc, shape, &STORES, &[])?;
    if !machine.at_rest() {
        Err(OutOfLimits)?;
    }
    match Bus::start(alloc, machine, 2, protect) {
        Ok((bus, passes, saver)) => Ok(Shared { bus, passes, saver }),
        Err((_, no_memory)) => Err(no_memory)?,
    }
}

// A call, with what it is to answer.
#[derive(Clone, Copy)]
enum Call {
    Step(StepAnswer),
    Pick(Pick),
    // And the first byte of the buffer after it.
    Take(u32, Taken, u8),
}

impl Shared {
    fn step(&mut self) -> Option<StepAnswer>
        requires { AreAllOf self.old.bus self.old.passes.items self.old.saver }
        ensures { AreAllOf self.new.bus self.new.passes.items self.new.saver }
    {
        if self.passes.is_empty() {
            return None;
        }
        Some(self.bus.try_step(&mut self.passes[0]))
    }

    fn pick(&mut self) -> Pick
        requires { AreAllOf self.old.bus self.old.passes.items self.old.saver }
        ensures { AreAllOf self.new.bus self.new.passes.items self.new.saver }
    {
        self.bus.pick_as(&mut self.saver)
    }

    fn take(&mut self, page: u32, into: &mut PageBuf) -> Option<Taken>
        requires { AreAllOf self.old.bus self.old.passes.items self.old.saver }
        ensures { AreAllOf self.new.bus self.new.passes.items self.new.saver }
    {
        if page >= self.saver.pages() {
            return None;
        }
        Some(self.bus.take_as(&mut self.saver, page, into))
    }

    fn answers_so(&mut self, into: &mut PageBuf, call: Call) -> bool
        requires { AreAllOf self.old.bus self.old.passes.items self.old.saver }
        ensures { AreAllOf self.new.bus self.new.passes.items self.new.saver }
    {
        match call {
            Call::Step(wanted) => self.step() == Some(wanted),
            Call::Pick(wanted) => self.pick() == wanted,
            Call::Take(page, wanted, first) => {
                self.take(page, into) == Some(wanted) && into.bytes().first() == Some(&first)
            }
        }
    }

    // How many of the calls, from the first on, answer as they are to.
    fn answered(&mut self, into: &mut PageBuf, calls: &[Call]) -> usize
        requires { AreAllOf self.old.bus self.old.passes.items self.old.saver }
        ensures { AreAllOf self.new.bus self.new.passes.items self.new.saver }
    {
        for (i, call) in calls.iter().enumerate() {
            if !self.answers_so(into, *call) {
                return i;
            }
        }
        calls.len()
    }

    // Whether its vCPU was stopped so often, and none of its passes found a cell held.
    fn counts(&self, blocked: u64) -> bool {
        match self.passes.first() {
            Some(pass) => pass.blocked() == blocked && pass.busy() | self.saver.busy() == 0,
            None => false,
        }
    }

    fn close(self) -> Closed
        requires { AreAllOf self.bus self.passes.items self.saver }
    {
        self.bus.close(self.passes, self.saver)
    }
}

// The machine after so many events, all of them of vCPU 0.
fn is_run_of(closed: &Closed, events: usize) -> bool {
    closed.machine.clock() == events as u64
        && closed.order.count() == events
        && (0..events).all(|i| closed.order.get(i) == Some(0))
}

// Calls, how often they stop the vCPU, and how many events they make.
#[derive(Clone, Copy)]
struct Case {
    protect: bool,
    calls: &'static [Call],
    blocked: u64,
    events: usize,
}

// Whether the calls on a bus answer as they are to, with the counts and the run.
fn runs_so(alloc: Global, case: Case) -> Result<bool, Fail> {
    let mut into = PageBuf::of_bytes(alloc, &[0x51])?;
    let mut shared = started(alloc, case.protect)?;
    let answered = shared.answered(&mut into, case.calls);
    Ok(
        answered == case.calls.len()
            && shared.counts(case.blocked)
            && is_run_of(&shared.close(), case.events),
    )
}

// What is stored goes on once its page is copied, and the pick of it comes too late.
static STOPPED_ONCE: [Call; 9] = [
    Call::Pick(Pick::Empty),
    Call::Step(StepAnswer::Done),
    Call::Step(StepAnswer::Done),
    Call::Step(StepAnswer::Stopped(1)),
    Call::Take(1, Taken::Copied, 0),
    Call::Pick(Pick::Fault(1)),
    Call::Take(1, Taken::Stale, 0),
    Call::Step(StepAnswer::Done),
    Call::Step(StepAnswer::Idle),
];

static TAKEN_FIRST: [Call; 4] = [
    Call::Pick(Pick::Empty),
    Call::Take(1, Taken::Copied, 0),
    Call::Take(1, Taken::Stale, 0),
    Call::Take(0, Taken::Copied, 0x97),
];

static NEVER_STOPPED: [Call; 5] = [
    Call::Step(StepAnswer::Done),
    Call::Step(StepAnswer::Done),
    Call::Step(StepAnswer::Done),
    Call::Step(StepAnswer::Idle),
    Call::Take(0, Taken::Stale, 0x51),
];

#[test]
fn a_stopped_store_is_made_once_its_page_is_copied(rt: HostRuntime) -> Result<(), Fail> {
    let case = Case {
        protect: true,
        calls: &STOPPED_ONCE,
        blocked: 1,
        events: 3,
    };
    assert!(rt; runs_so(rt.alloc(), case)?);
    Ok(())
}

#[test]
fn pages_taken_before_any_event_have_the_bytes_of_the_instant(rt: HostRuntime) -> Result<(), Fail> {
    let case = Case {
        protect: true,
        calls: &TAKEN_FIRST,
        blocked: 0,
        events: 0,
    };
    assert!(rt; runs_so(rt.alloc(), case)?);
    Ok(())
}

#[test]
fn an_unprotected_bus_stops_nothing(rt: HostRuntime) -> Result<(), Fail> {
    let case = Case {
        protect: false,
        calls: &NEVER_STOPPED,
        blocked: 0,
        events: 3,
    };
    assert!(rt; runs_so(rt.alloc(), case)?);
    Ok(())
}
