ghost use Rattle.std.specs.Prelude.{◌≡◌, ◌≢◌, ◌<◌, ◌≤◌, ◌^◌, ℕ, [], All, None, Option, Some, false, length, map, replicate, slice_get, vec_capacity, vec_len};
ghost use Rattle.ram_block.specs.Shape.{total_pages_of};
ghost use Rattle.ram_block.specs.declared.page_buf.TheConstants.{PAGE};
ghost use Rattle.rv64i_step.specs.Event.{IsStage, request_of};
ghost use Rattle.rv64i_step.specs.Request.{CanServe, written_page};
ghost use Rattle.rv64i_step.specs.Vcpu.{VcpuData};
ghost use Rattle.rv64i_step.specs.declared.request.Request.TheVariants.{Nothing};
ghost use Rattle.flat_machine.specs.Cell.{cell_at, content, content_after, gives, with_content};
ghost use Rattle.flat_machine.specs.Machine.{IsMachine, page_of};
ghost use Rattle.flat_machine.specs.Next.{cell_of, next};
ghost use Rattle.flat_machine.specs.Run.{ended_at, halted_at, steps_of};
ghost use Rattle.page_cell.specs.Core.{is_protected, protected_page, stopped_page};
ghost use Rattle.plain_bus.specs.Cells.{StepsTo, buffer_after, flags_after, is_writable, taken_where};

use crate::pages::{apply_to_cells, into_cells, into_ram, stopped_on, take_from};
use crate::vcpus::{access_into, fetch_into, request_of};
use flat_machine::{Machine, Parts, apply_to_serial, apply_to_timer, phase_has_ended};
use page_cell::{Cell, PageBuf, Phase, Taken};
use ram_block::{Place, Shape};
use rv64i_step::{Request, Vcpu};
use serial_timer::{Serial, Timer};
use std::marker::Model;

/// A machine whose pages are in cells. Contracts see the machine, and which pages are writable.
#[derive(Drop)]
pub(crate) struct CellMachine {
    shape: Shape,
    pages: Vec<Cell>,
    // The list that the pages were in, and go back to.
    ram: Vec<PageBuf>,
    vcpus: Vec<Vcpu>,
    serial: Serial,
    timer: Timer,
    clock: u64,
}

impl Model for CellMachine {
    ghost use Rattle.std.specs.Prelude.{◌≡◌, ◌^◌, ◌<◌, ◌≤◌, [], vec_capacity, vec_len, All};
    ghost use Rattle.ram_block.specs.Shape.{IsShape, total_pages_of};
    ghost use Rattle.rv64i_step.specs.Event.{IsServable};
    ghost use Rattle.rv64i_step.specs.Vcpu.{IsVcpu};
    ghost use Rattle.serial_timer.specs.Serial.{IsSerial};
    ghost use Rattle.plain_bus.specs.Cells.{CellsData, IsWholePage, flags_of, ram_of};

    ghost Value = { CellsData };

    ghost view = { λ m. record {
      machine = record { shape = m.shape; ram = ram_of m.pages.items; vcpus = m.vcpus.items; serial = m.serial; cmp = m.timer; clock = m.clock };
      writable = flags_of m.pages.items;
    } };

    ghost invariant = { λ m. record {
      shape : IsShape m.shape;
      pages : vec_len m.pages ≡ total_pages_of m.shape;
      whole : All IsWholePage m.pages.items;
      empty : m.ram.items ≡ [];
      room : total_pages_of m.shape ≤ vec_capacity m.ram;
      vcpus : vec_len m.vcpus ≡ m.shape.vcpus;
      each : All IsVcpu m.vcpus.items;
      servable : All (IsServable m.shape) m.vcpus.items;
      serial : IsSerial m.serial;
      cmp : m.timer < 2 ^ 64;
      clock : m.clock ≤ 2 ^ 63;
    } };
}

#[tactic(auto, using(crate::proofs::Cells::ram_len))]
impl CellMachine {
    /// The machine, with each page moved into a cell in this phase. There is room for the cells.
    pub(crate) fn of(machine: Machine, cells: Vec<Cell>, phase: Phase) -> CellMachine
        requires empty { cells.items ≡ [] }
        requires room { total_pages_of machine.shape ≤ vec_capacity cells }
        ensures machine { result.machine ≡ machine }
        ensures writable { result.writable ≡ replicate (total_pages_of machine.shape) (is_writable phase) }
        ensures limits { IsMachine result.machine }
    {
        let Parts {
            shape,
            mut ram,
            vcpus,
            serial,
            timer,
            clock,
        } = machine.into_parts();
        let mut pages = cells;
        into_cells(&mut ram, &mut pages, phase);
        CellMachine {
            shape,
            pages,
            ram,
            vcpus,
            serial,
            timer,
            clock,
        }
    }

    /// The machine, with its pages moved back.
    pub(crate) fn into_machine(self) -> Machine
        ensures machine { result ≡ self.machine }
        ensures limits { IsMachine result }
    {
        let CellMachine {
            shape,
            mut pages,
            mut ram,
            vcpus,
            serial,
            timer,
            clock,
        } = self;
        into_ram(&mut pages, &mut ram);
        Machine::of(shape, ram, vcpus, serial, timer, clock)
    }

    #[inline(always)]
    pub(crate) fn shape(&self) -> Shape
        ensures value { result ≡ self.now.machine.shape }
        ensures limits { IsMachine self.now.machine }
    {
        self.shape
    }

    /// Whether the phase of vCPU k that ends at this count of steps has ended.
    #[inline(always)]
    pub(crate) fn has_ended(&self, k: u32, until: u64) -> bool
        requires { k < self.now.machine.shape.vcpus }
        ensures ended { result ≡ ended_at until self.now.machine k }
        ensures limits { IsMachine self.now.machine }
    {
        phase_has_ended(&self.vcpus[k as usize], until)
    }

    /// One event of vCPU k, or the protected page that stops it.
    #[inline(always)]
    pub(crate) fn step(&mut self, k: u32) -> Option<u32>
        requires vcpu { k < self.old.machine.shape.vcpus }
        requires clock { self.old.machine.clock < 2 ^ 63 }
        requires steps { steps_of self.old.machine k < 2 ^ 63 }
        requires runs { halted_at self.old.machine k ≡ false }
        ensures stopped { result ≡ stopped_page self.old.machine self.old.writable k }
        ensures event { StepsTo self.old k result self.new }
        ensures limits { IsMachine self.new.machine }
    {
        let request = request_of(&self.vcpus, k as usize, &self.shape);
        let stopped = stopped_on(&self.pages, &request);
        if stopped.is_none() {
            self.perform(k, &request);
        }
        stopped
    }

    /// Copies a protected page out and makes it writable.
    pub(crate) fn take(&mut self, page: u32, into: &mut PageBuf) -> Taken
        requires { page < total_pages_of self.old.machine.shape }
        ensures taken { result ≡ taken_where (is_protected self.old.writable page) }
        ensures machine { self.new.machine ≡ self.old.machine }
        ensures writable { self.new.writable ≡ flags_after self.old.writable page (is_protected self.old.writable page) }
        ensures buffer { into.new ≡ buffer_after (page_of self.old.machine page) into.old (is_protected self.old.writable page) }
        ensures limits { IsMachine self.new.machine }
    {
        take_from(&mut self.pages, page, into)
    }

    // The event of vCPU k with its request, which no page stops.
    #[tactic(auto, using(crate::proofs::Cells::ram_len, flat_machine::proofs::Served::serving), unfolding(flat_machine::specs::Next::next, flat_machine::specs::Next::cell_of, flat_machine::specs::Next::vcpu_after, flat_machine::specs::Cell::gives, flat_machine::specs::Cell::content_after))]
    #[inline(always)]
    fn perform(&mut self, k: u32, request: &Request)
        requires vcpu { k < self.old.machine.shape.vcpus }
        requires clock { self.old.machine.clock < 2 ^ 63 }
        requires steps { steps_of self.old.machine k < 2 ^ 63 }
        requires asks { (v : VcpuData) → slice_get self.old.machine.vcpus k ≡ Some v → request_of self.old.machine.shape v ≡ request.now }
        requires stage { (v : VcpuData) → slice_get self.old.machine.vcpus k ≡ Some v → IsStage v request.now }
        requires can { CanServe self.old.machine.shape request.now }
        requires something { request.now ≢ Nothing }
        requires free { protected_page self.old.writable (written_page request.now) ≡ None }
        ensures event { next self.old.machine k ≡ Some self.new.machine }
        ensures writable { self.new.writable ≡ self.old.writable }
        ensures limits { IsMachine self.new.machine }
    {
        match *request {
            Request::Nothing => unreachable!(),
            Request::NoFetch(_) => fetch_into(&mut self.vcpus, k as usize, &self.shape, None),
            Request::Fetch { page, .. } => {
                let word = apply_to_cells(&mut self.pages, page, request, self.clock) as u32;
                fetch_into(&mut self.vcpus, k as usize, &self.shape, Some(word));
            }
            Request::Load { place, .. }
            | Request::Store { place, .. }
            | Request::Amo { place, .. } => {
                let value = self.serve(place, request);
                access_into(&mut self.vcpus, k as usize, &self.shape, value);
            }
        }
        self.clock += 1;
    }

    // The part of an event that the cell of a place has.
    #[tactic(auto, using(crate::proofs::Cells::ram_len, flat_machine::proofs::Served::serving), unfolding(flat_machine::specs::Cell::gives, flat_machine::specs::Cell::content_after, flat_machine::specs::Next::cell_of))]
    #[inline(always)]
    fn serve(&mut self, place: Place, request: &Request) -> u64
        requires can { CanServe self.old.machine.shape request.now }
        requires place { cell_of request.now ≡ Some (cell_at place) }
        requires free { protected_page self.old.writable (written_page request.now) ≡ None }
        ensures gives { result ≡ gives request.now (content self.old.machine (cell_at place)) self.old.machine.clock }
        ensures after { self.new.machine ≡ with_content self.old.machine (cell_at place) (content_after request.now (content self.old.machine (cell_at place))) }
        ensures writable { self.new.writable ≡ self.old.writable }
        ensures shape { self.new.machine.shape ≡ self.old.machine.shape }
        ensures vcpus { self.new.machine.vcpus ≡ self.old.machine.vcpus }
        ensures clock { self.new.machine.clock ≡ self.old.machine.clock }
        ensures limits { IsMachine self.new.machine }
    {
        match place {
            Place::Ram { page, .. } => apply_to_cells(&mut self.pages, page, request, self.clock),
            Place::Serial(_) => apply_to_serial(&mut self.serial, request),
            Place::Timer(_) => apply_to_timer(&mut self.timer, request, self.clock),
        }
    }
}
