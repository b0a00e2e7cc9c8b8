ghost use Rattle.std.specs.Prelude.{◌≡◌, ◌↔◌, ◌<◌, ◌+◌, ◌^◌, ℕ, List, IfOk, IfErr, OnErr, IfSome, None, Some, Err, length, slice_get, true, false};
ghost use Rattle.medium.specs.Count.{HasRisen};
ghost use Rattle.medium.specs.Members.{file_state};
ghost use Rattle.medium.specs.States.{Leaves};
ghost use Rattle.ram_block.specs.PageLinks.{is_listed};
ghost use Rattle.ram_block.specs.Shape.{total_pages_of};
ghost use Rattle.loader.specs.Stands.{IsFrame, says_frame};
ghost use Rattle.flat_machine.specs.Laws.{event_cell};
ghost use Rattle.flat_machine.specs.Run.{halted_at, steps_of};
ghost use Rattle.page_peek.specs.declared.fault.PageFault.TheVariants as pages;
ghost use Rattle.lazy_restore.specs.declared.answer.LazyStep.TheVariants.{Halted};

use crate::LazyStep;
use crate::pages::{next_page, put_page, read_untouched, zero_pages};
use device_state::Devices;
use flat_machine::{Machine, Parts};
use loader::{Frame, LoadFault, frame};
use medium::{Medium, Readable};
use page_peek::{PageFault, Peek};
use ram_block::{NoMemory, PageBuf, Shape};
use rv64i_step::Vcpu;
use std::alloc::Global;
use std::marker::Model;
use wp_fault::FaultQueue;

/// What is held of a machine that is restored page by page: all of it but the pages that weren't touched, and which
/// pages its file has.
#[derive(Drop)]
pub struct Held {
    // There between any two calls; it is taken out while a page is put into it.
    machine: Option<Machine>,
    peek: Peek,
    // The pages that were touched, in the order of their first events, and how many there are.
    touched: FaultQueue,
    count: u32,
    // A page that is read stands here until it is whole.
    page: PageBuf,
}

impl Model for Held {
    ghost use Rattle.std.specs.Prelude.{◌≡◌, length, IsSome};
    ghost use Rattle.ram_block.specs.Shape.{total_pages_of};
    ghost use Rattle.lazy_restore.specs.Lazy.{IsLazy, LazyData, machine_in};

    ghost Value = { LazyData };

    ghost view = { λ h. record { machine = machine_in h.machine; peek = h.peek; touched = h.touched.list } };

    ghost invariant = { λ h. record {
      there : IsSome h.machine;
      lazy : IsLazy (record { machine = machine_in h.machine; peek = h.peek; touched = h.touched.list });
      pages : h.touched.pages ≡ total_pages_of (machine_in h.machine).shape;
      count : h.count ≡ length h.touched.list;
    } };
}

impl Held {
    ghost use Rattle.lazy_restore.specs.Answers.{FailsToOpen, IsHeldOf, LeavesFinish, LeavesReach, LeavesStep, LeavesTouch, Opens};
    ghost use Rattle.lazy_restore.specs.Lazy.{IsLazy, new_page, page_of_cell};

    /// Reads all of a file but its pages. All memory is taken here, and the file is only lent: it goes into a `Lazy`
    /// beside what is held.
    pub fn open<M: Medium>(alloc: Global, medium: &mut M) -> Result<Held, LoadFault>
        ensures opens { IfOk result (λ held. Opens (M.Readable.told medium.old) held) }
        ensures refused { IfErr result (λ fault. FailsToOpen (file_state M.Readable medium.old) fault (file_state M.Readable medium.new)) }
        ensures leaves { Leaves (file_state M.Readable medium.old) (file_state M.Readable medium.new) }
    {
        let frame = match frame(alloc, medium) {
            Ok(frame) => frame,
            Err(fault) => return Err(fault),
        };
        match Held::of(alloc, frame) {
            Ok(held) => Ok(held),
            Err(NoMemory) => Err(LoadFault::NoMemory),
        }
    }

    // What is held of a frame before the first event.
    fn of(alloc: Global, frame: Frame) -> Result<Held, NoMemory>
        requires { IsFrame (says_frame frame) }
        ensures { IfOk result (IsHeldOf (says_frame frame)) }
    {
        let Frame {
            shape,
            bits,
            devices,
        } = frame;
        let ram = zero_pages(alloc, shape.total_pages())?;
        let touched = FaultQueue::new(alloc, shape.total_pages())?;
        let page = PageBuf::new(alloc)?;
        let Devices {
            vcpus,
            serial,
            timer,
            clock,
        } = devices;
        Ok(Held {
            machine: Some(Machine::of(shape, ram, vcpus, serial, timer, clock)),
            peek: Peek::of(shape, bits),
            touched,
            count: 0,
            page,
        })
    }

    /// One event of vCPU k. The page that it touches is read first, where none has touched it so far.
    pub(crate) fn step<M: Medium>(&mut self, medium: &mut M, k: u32) -> LazyStep
        requires vcpu { k < self.old.machine.shape.vcpus }
        requires clock { self.old.machine.clock < 2 ^ 63 }
        requires steps { steps_of self.old.machine k < 2 ^ 63 }
        ensures step { LeavesStep (file_state M.Readable medium.old) (file_state M.Readable medium.new) self.old k result self.new }
        ensures halted { (result ≡ Halted) ↔ (halted_at self.old.machine k ≡ true) }
        ensures limits { IsLazy self.new }
        ensures leaves { Leaves (file_state M.Readable medium.old) (file_state M.Readable medium.new) }
    {
        if let Err(fault) = self.reach(medium, k) {
            return LazyStep::failed(fault);
        }
        match &mut self.machine {
            Some(machine) => LazyStep::of(machine.step(k)),
            None => unreachable!(),
        }
    }

    pub(crate) fn shape(&self) -> Shape
        ensures value { result ≡ self.now.machine.shape }
        ensures limits { IsLazy self.now }
    {
        self.machine().shape()
    }

    /// The vCPU with a number, from 0.
    pub(crate) fn vcpu(&self, k: u32) -> &Vcpu
        requires { k < self.now.machine.shape.vcpus }
        ensures value { slice_get self.now.machine.vcpus k ≡ Some result.now }
        ensures limits { IsLazy self.now }
    {
        self.machine().vcpu(k)
    }

    /// How many pages were touched.
    pub(crate) fn touched(&self) -> u32
        ensures value { result ≡ length self.now.touched }
        ensures limits { IsLazy self.now }
    {
        self.count
    }

    /// Reads the pages that weren't touched, and gives the whole machine.
    pub(crate) fn finish<M: Medium>(self, medium: &mut M) -> Result<Machine, PageFault>
        ensures finish { LeavesFinish (file_state M.Readable medium.old) (file_state M.Readable medium.new) self result }
        ensures leaves { Leaves (file_state M.Readable medium.old) (file_state M.Readable medium.new) }
    {
        let Held {
            machine,
            peek,
            touched,
            ..
        } = self;
        let Some(machine) = machine else {
            unreachable!()
        };
        let Parts {
            shape,
            mut ram,
            vcpus,
            serial,
            timer,
            clock,
        } = machine.into_parts();
        if let Err(fault) = read_untouched(medium, &peek, &touched, &mut ram) {
            return Err(fault);
        }
        Ok(Machine::of(shape, ram, vcpus, serial, timer, clock))
    }

    // Reads the page that the next event of vCPU k touches, where none has touched it so far.
    fn reach<M: Medium>(&mut self, medium: &mut M, k: u32) -> Result<(), PageFault>
        requires { k < self.old.machine.shape.vcpus }
        ensures reach { LeavesReach (file_state M.Readable medium.old) (file_state M.Readable medium.new) self.old (new_page self.old (page_of_cell (event_cell self.old.machine k))) result self.new }
        ensures was { IsLazy self.old }
        ensures limits { IsLazy self.new }
        ensures leaves { Leaves (file_state M.Readable medium.old) (file_state M.Readable medium.new) }
    {
        match self.missing(k) {
            Some(page) => self.touch(medium, page),
            None => Ok(()),
        }
    }

    // The page that the next event of vCPU k touches, where none has touched it so far.
    fn missing(&self, k: u32) -> Option<u32>
        requires { k < self.now.machine.shape.vcpus }
        ensures page { result ≡ new_page self.now (page_of_cell (event_cell self.now.machine k)) }
        ensures within { IfSome result (λ p. p < total_pages_of self.now.machine.shape) }
        ensures new { IfSome result (λ p. is_listed self.now.touched p ≡ false) }
        ensures limits { IsLazy self.now }
    {
        match next_page(self.machine(), k) {
            Some(page) if !self.touched.has(page) => Some(page),
            _ => None,
        }
    }

    // Reads a page that none has touched so far.
    fn touch<M: Medium>(&mut self, medium: &mut M, page: u32) -> Result<(), PageFault>
        requires page { page < total_pages_of self.old.machine.shape }
        requires new { is_listed self.old.touched page ≡ false }
        ensures touch { LeavesTouch (file_state M.Readable medium.old) (file_state M.Readable medium.new) self.old page result self.new }
        ensures limits { IsLazy self.new }
        ensures leaves { Leaves (file_state M.Readable medium.old) (file_state M.Readable medium.new) }
    {
        self.peek.page(medium, page, &mut self.page)?;
        put_page(&mut self.machine, page, &self.page);
        if self.touched.push(page) {
            self.count += 1;
        }
        Ok(())
    }

    fn machine(&self) -> &Machine
        ensures machine { result.now ≡ self.now.machine }
        ensures limits { IsLazy self.now }
    {
        match &self.machine {
            Some(machine) => machine,
            None => unreachable!(),
        }
    }
}
