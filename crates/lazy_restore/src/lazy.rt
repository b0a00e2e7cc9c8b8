ghost use Rattle.std.specs.Prelude.{◌≡◌, ◌≢◌, ◌↔◌, ◌<◌, ◌^◌, ℕ, List, IfErr, IfOk, IfSome, Some, length, slice_get, true};
ghost use Rattle.medium.specs.Members.{file_state};
ghost use Rattle.medium.specs.States.{Leaves};
ghost use Rattle.flat_machine.specs.Run.{halted_at, steps_of};
ghost use Rattle.lazy_restore.specs.Answers.{FailsToOpen, LeavesFinish, LeavesStep, Opens};
ghost use Rattle.lazy_restore.specs.Lazy.{IsLazy, IsWhole};
ghost use Rattle.lazy_restore.specs.declared.answer.LazyStep.TheVariants.{Halted, Truncated};

use crate::{Held, LazyStep};
use flat_machine::Machine;
use loader::LoadFault;
use medium::{Medium, Readable};
use page_peek::PageFault;
use ram_block::Shape;
use rv64i_step::Vcpu;
use std::alloc::Global;

/// A machine whose pages are read from a file when they are first touched, and the file.
// What is held is a type parameter so that a clause can name the file that `finish` left behind.
#[derive(Drop)]
pub struct Lazy<'a, M, H = Held> {
    pub held: H,
    pub medium: &'a mut M,
}

impl<'a, M: Medium> Lazy<'a, M> {
    /// Opens a file of which no byte of a page is read. All memory is taken here. A file that isn't opened is handed
    /// back.
    pub fn open(alloc: Global, medium: &'a mut M) -> Result<Lazy<'a, M>, (&'a mut M, LoadFault)>
        ensures opens { IfOk result (λ lazy. Opens (M.Readable.told medium.old) lazy.held) }
        ensures leaves { IfOk result (λ lazy. Leaves (file_state M.Readable medium.old) (file_state M.Readable lazy.medium.now)) }
        ensures same_medium { IfOk result (λ lazy. lazy.medium.ghost_name ≡ medium.entry.ghost_name) }
        ensures refused { IfErr result (λ e. FailsToOpen (file_state M.Readable medium.old) e.1 (file_state M.Readable e.0.now)) }
        ensures handed_back { IfErr result (λ e. e.0.ghost_name ≡ medium.entry.ghost_name) }
    {
        match Held::open(alloc, medium) {
            Ok(held) => Ok(Lazy { held, medium }),
            Err(fault) => Err((medium, fault)),
        }
    }

    /// One event of vCPU k. The page that it touches is read first, where none has touched it so far.
    pub fn step(&mut self, k: u32) -> LazyStep
        requires vcpu { k < self.old.held.machine.shape.vcpus }
        requires clock { self.old.held.machine.clock < 2 ^ 63 }
        requires steps { steps_of self.old.held.machine k < 2 ^ 63 }
        ensures step { LeavesStep (file_state M.Readable self.old.medium.now) (file_state M.Readable self.new.medium.now) self.old.held k result self.new.held }
        ensures halted { (result ≡ Halted) ↔ (halted_at self.old.held.machine k ≡ true) }
        ensures whole { IfSome (M.Readable.told self.old.medium.now) (λ file. IsWhole file self.old.held → (at : ℕ) → result ≢ Truncated at) }
        ensures limits { IsLazy self.new.held }
        ensures same_medium { self.new.medium.ghost_name ≡ self.old.medium.ghost_name }
        ensures leaves { Leaves (file_state M.Readable self.old.medium.now) (file_state M.Readable self.new.medium.now) }
    {
        self.held.step(self.medium, k)
    }

    pub fn shape(&self) -> Shape
        ensures value { result ≡ self.now.held.machine.shape }
        ensures limits { IsLazy self.now.held }
    {
        self.held.shape()
    }

    /// The vCPU with a number, from 0.
    pub fn vcpu(&self, k: u32) -> &Vcpu
        requires { k < self.now.held.machine.shape.vcpus }
        ensures value { slice_get self.now.held.machine.vcpus k ≡ Some result.now }
        ensures limits { IsLazy self.now.held }
    {
        self.held.vcpu(k)
    }

    /// How many pages the events so far have touched.
    pub fn touched(&self) -> u32
        ensures value { result ≡ length self.now.held.touched }
        ensures limits { IsLazy self.now.held }
    {
        self.held.touched()
    }

    /// Reads the pages that weren't touched, and gives the whole machine. It takes no memory.
    pub fn finish(self) -> Result<Machine, PageFault>
        ensures finish { LeavesFinish (file_state M.Readable self.entry.medium.now) (file_state M.Readable self.exit.1.0.now) self.entry.held result }
        ensures leaves { Leaves (file_state M.Readable self.entry.medium.now) (file_state M.Readable self.exit.1.0.now) }
    {
        let Lazy { held, medium } = self;
        held.finish(medium)
    }
}
