ghost use Rattle.std.specs.Prelude.{◌≡◌, false, length};
ghost use Rattle.ram_block.specs.declared.page_buf.TheConstants.{PAGE};
ghost use Rattle.flat_machine.specs.Fits.{IsWordIfFetched};
ghost use Rattle.page_cell.specs.Cell.{FitsCell, IsCell, IsPage, buffer_after, bytes_in, cell_after, cell_gives, phase_in, stops_at, taken_in};
ghost use Rattle.page_cell.specs.declared.cell.Cell.TheVariants as cells;
ghost use Rattle.page_cell.specs.declared.phase.Phase.TheVariants.{Writable};

use crate::{Phase, Taken};
use flat_machine::{apply_to_page, apply_to_serial, apply_to_timer};
use ram_block::PageBuf;
use rv64i_step::Request;
use serial_timer::{Serial, Timer};
use wp_fault::FaultQueue;

/// What one event touches beside its vCPU, or a stopped one: a page of RAM, a device, or the queue of faulted pages.
#[derive(Drop)]
pub enum Cell {
    Page { bytes: PageBuf, phase: Phase },
    Serial(Serial),
    Timer(Timer),
    Faults(FaultQueue),
}

impl Cell {
    /// Whether the cell stops an event: a protected page stops a store and an AMO.
    #[inline(always)]
    pub fn stops(&self, request: &Request) -> bool
        ensures { result ≡ stops_at request.now self.now }
    {
        match self {
            Cell::Page {
                phase: Phase::Protected,
                ..
            } => matches!(*request, Request::Store { .. } | Request::Amo { .. }),
            _ => false,
        }
    }

    /// Whether it may be written: no other cell than a page is ever protected.
    #[inline(always)]
    pub fn phase(&self) -> Phase
        ensures { result ≡ phase_in self.now }
    {
        match self {
            Cell::Page { phase, .. } => *phase,
            _ => Phase::Writable,
        }
    }

    /// The cell's part of an event, at a time, which is the number of events before this one. It answers the word
    /// fetched, the value loaded, or the value that an AMO found, and 0 to a store.
    #[tactic(auto, unfolding(crate::specs::Cell::cell_gives, crate::specs::Cell::cell_after))]
    #[inline(always)]
    pub fn apply(&mut self, request: &Request, time: u64) -> u64
        requires fits { FitsCell request.now self.old }
        requires free { stops_at request.now self.old ≡ false }
        ensures gives { result ≡ cell_gives request.now self.old time }
        ensures after { self.new ≡ cell_after request.now self.old }
        ensures word { IsWordIfFetched request.now result }
        ensures limits { IsCell self.new }
    {
        match self {
            Cell::Page { bytes, .. } => apply_to_page(bytes, request),
            Cell::Serial(serial) => apply_to_serial(serial, request),
            Cell::Timer(timer) => apply_to_timer(timer, request, time),
            Cell::Faults(_) => unreachable!(),
        }
    }

    /// A page's part of a take: one that is protected is copied out and made writable, one that is writable stays, and
    /// so does the buffer.
    pub fn take(&mut self, into: &mut PageBuf) -> Taken
        requires { IsPage self.old }
        ensures taken { result ≡ taken_in (phase_in self.old) }
        ensures buffer { into.new ≡ buffer_after (phase_in self.old) (bytes_in self.old) into.old }
        ensures cell { self.new ≡ cells.Page (bytes_in self.old) Writable }
    {
        match self {
            Cell::Page {
                phase: Phase::Writable,
                ..
            } => Taken::Stale,
            _ => {
                self.release(into);
                Taken::Copied
            }
        }
    }

    /// Copies a page's bytes out, and then makes the page writable.
    pub fn release(&mut self, into: &mut PageBuf)
        requires { IsPage self.old }
        ensures copied { into.new ≡ bytes_in self.old }
        ensures cell { self.new ≡ cells.Page (bytes_in self.old) Writable }
        ensures length { length into.new ≡ PAGE }
    {
        match self {
            Cell::Page { bytes, phase } => {
                into.copy_from(bytes);
                *phase = Phase::Writable;
            }
            _ => unreachable!(),
        }
    }
}
