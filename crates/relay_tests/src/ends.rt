ghost use Rattle.std.specs.Prelude.{◌≡◌, false, replicate};
ghost use Rattle.ram_block.specs.Shape.{total_pages_of};

use crate::plants::OutOfLimits;
use bg_saver::Counts;
use page_cell::{PageBuf, Pick, Plant, Taken};
use plain_bus::{PlainBus, StepAnswer};
use std::alloc::Global;
use std::marker::Model;
use std::sync::Wait;
use std::test::Fail;
use write_pipe::{CopyEnd, CopyTurn, Discard, Fetch, MAX_ROOM, WriteEnd, relay};

/// A call on a bus or on one end of a relay over it, with what it is to answer.
#[derive(Clone, Copy)]
pub(crate) enum Call {
    /// The turn of the vCPU.
    Step(StepAnswer),
    /// The turn of the copier.
    Turn(CopyTurn),
    Fetch(Fetch),
    Pick(Pick),
    Take(u32, Taken),
    Discard(Discard),
    /// No call: the page that was taken last begins with these bytes, and has zeros behind them.
    Holds(&'static [u8]),
}

/// A bus and both ends of a relay over it, with the buffer that pages are taken into. Contracts see how many pages there are.
#[derive(Drop)]
pub(crate) struct Ends {
    bus: PlainBus,
    copier: CopyEnd<PlainBus>,
    writer: WriteEnd<PlainBus>,
    pages: u32,
    // Whether a page is in hand at the writer's end, which a fetch asks for.
    held: bool,
    into: PageBuf,
}

impl Model for Ends {
    ghost use Rattle.std.specs.Prelude.{ℕ};
    ghost use Rattle.relay_tests.specs.Ends.{AreEnds};

    ghost Value = { ℕ };

    ghost view = { λ e. e.pages };

    ghost invariant = { λ e. AreEnds e.bus e.copier e.writer e.pages e.held };
}

/// Both ends of a relay over the bus, which holds so many pages.
pub(crate) fn ends_of(alloc: Global, bus: PlainBus, room: u32) -> Result<Ends, Fail>
    requires { bus.writable ≡ replicate (total_pages_of bus.machine.shape) false }
{
    if room == 0 || room > MAX_ROOM {
        Err(OutOfLimits)?;
    }
    let pages = bus.shape().total_pages();
    let into = PageBuf::of_bytes(alloc, &[0x51])?;
    let (copier, writer) = relay(alloc, &bus, pages, room)?;
    Ok(Ends {
        bus,
        copier,
        writer,
        pages,
        held: false,
        into,
    })
}

impl Ends {
    /// How many of the calls, from the first on, answer as they are to.
    pub(crate) fn answered<R: Wait>(&mut self, rt: &R, calls: &[Call]) -> usize {
        for (i, call) in calls.iter().enumerate() {
            if !self.answers_so(rt, *call) {
                return i;
            }
        }
        calls.len()
    }

    fn answers_so<R: Wait>(&mut self, rt: &R, call: Call) -> bool {
        match call {
            Call::Step(wanted) => self.step() == Some(wanted),
            Call::Turn(wanted) => self.turn(rt) == wanted,
            Call::Fetch(wanted) => self.fetch(rt) == Some(wanted),
            Call::Pick(wanted) => self.pick() == wanted,
            Call::Take(page, wanted) => self.take(page) == Some(wanted),
            Call::Discard(wanted) => self.discard(rt) == wanted,
            Call::Holds(bytes) => is_filled(&self.into, bytes),
        }
    }

    /// The first page from this one on that a turn doesn't pass, and what that turn answers; none where all are passed.
    pub(crate) fn first_not_passed<R: Wait>(
        &mut self,
        rt: &R,
        from: u32,
    ) -> Option<(u32, CopyTurn)> {
        for page in from..self.pages {
            let answer = self.turn(rt);
            if answer != CopyTurn::Passed(page) {
                return Some((page, answer));
            }
        }
        None
    }

    /// The first page from this one on that doesn't come out next; none where all do. Each one that comes is taken.
    pub(crate) fn first_not_come<R: Wait>(&mut self, rt: &R, from: u32) -> Option<u32> {
        for page in from..self.pages {
            if !self.comes(rt, page) {
                return Some(page);
            }
        }
        None
    }

    // Whether this page comes out next. It is picked and taken then.
    fn comes<R: Wait>(&mut self, rt: &R, page: u32) -> bool {
        self.fetch(rt) == Some(Fetch::Got(page))
            && self.pick() == Pick::Fault(page)
            && self.take(page) == Some(Taken::Copied)
    }

    /// What the copier counted.
    pub(crate) fn counts(&self) -> Counts {
        self.copier.counts()
    }

    /// The bus, and the buffer that pages were taken into.
    pub(crate) fn into_parts(self) -> (PlainBus, PageBuf) {
        let Ends { bus, into, .. } = self;
        (bus, into)
    }

    fn step(&mut self) -> Option<StepAnswer> {
        if self.bus.shape().vcpus() == 0 {
            return None;
        }
        Some(self.bus.try_step(0))
    }

    fn turn<R: Wait>(&mut self, rt: &R) -> CopyTurn {
        self.copier.turn(rt, &mut self.bus)
    }

    // None where a page is in hand.
    fn fetch<R: Wait>(&mut self, rt: &R) -> Option<Fetch> {
        if self.held {
            return None;
        }
        let answer = self.writer.fetch(rt);
        self.held = matches!(answer, Fetch::Got(_));
        Some(answer)
    }

    fn pick(&mut self) -> Pick {
        self.writer.pick()
    }

    // None where there is no such page.
    fn take(&mut self, page: u32) -> Option<Taken> {
        if page >= self.pages {
            return None;
        }
        let answer = self.writer.take(page, &mut self.into);
        if let Taken::Copied = answer {
            self.held = false;
        }
        Some(answer)
    }

    fn discard<R: Wait>(&mut self, rt: &R) -> Discard {
        let answer = self.writer.discard(rt);
        self.held = false;
        answer
    }
}

// Whether a page begins with these bytes, and has zeros behind them.
fn is_filled(page: &PageBuf, bytes: &[u8]) -> bool {
    let page = page.bytes();
    page.starts_with(bytes) && page.iter().skip(bytes.len()).all(|byte| *byte == 0)
}
