ghost use Rattle.std.specs.Prelude.{◌≡◌, ◌≤◌, IfOk};
ghost use Rattle.page_bus.specs.Closing.{AreAllOf};
ghost use Rattle.ram_block.specs.declared.limits.TheConstants.{MAX_PHASE};

use crate::compare::{have_made, is_same, replayed};
use flat_machine::Machine;
use page_bus::{Bus, SaverPass, VcpuPass};
use plain_bus::{Closed, StepAnswer};
use ram_block::Shape;
use std::alloc::Global;
use std::test::Fail;

/// A test asks for what a machine or a bus doesn't have.
#[derive(Debug, Drop)]
pub(crate) struct OutOfLimits;

/// A bus with all its passes, and the machine that it started at.
#[derive(Drop)]
pub(crate) struct Shared {
    pub(crate) bus: Bus,
    pub(crate) passes: Vec<VcpuPass>,
    pub(crate) saver: SaverPass,
    pub(crate) start: Machine,
}

/// A machine of one block with so many vCPUs and pages, which boots with these words.
pub(crate) fn booted(
    alloc: Global,
    vcpus: u64,
    pages: u64,
    words: &[u32],
) -> Result<Machine, Fail> {
    let shape = Shape::new(vcpus, 1, pages)?;
    let mut image = Vec::new(alloc);
    for word in words {
        image.extend_from_slice(&word.to_le_bytes())?;
    }
    if image.len() as u64 > shape.ram_bytes() {
        Err(OutOfLimits)?;
    }
    Ok(Machine::boot(alloc, shape, &image, &[])?)
}

/// A bus over the machine, for a phase of so many instructions.
pub(crate) fn started(
    alloc: Global,
    machine: Machine,
    run: u32,
    protect: bool,
) -> Result<Shared, Fail>
    requires { run ≤ MAX_PHASE }
    ensures { IfOk result (λ s. AreAllOf s.bus s.passes.items s.saver) }
{
    if !machine.at_rest() {
        Err(OutOfLimits)?;
    }
    let start = machine.copy(alloc)?;
    match Bus::start(alloc, machine, run, protect) {
        Ok((bus, passes, saver)) => Ok(Shared {
            bus,
            passes,
            saver,
            start,
        }),
        Err((_, no_memory)) => Err(no_memory)?,
    }
}

impl Shared {
    /// The turn of a vCPU.
    pub(crate) fn step(&mut self, k: usize) -> Option<StepAnswer>
        requires { AreAllOf self.old.bus self.old.passes.items self.old.saver }
        ensures { AreAllOf self.new.bus self.new.passes.items self.new.saver }
    {
        if k >= self.passes.len() {
            return None;
        }
        Some(self.bus.try_step(&mut self.passes[k]))
    }

    /// Whether what a close gives is the run of its order, in which each vCPU has made so many steps.
    pub(crate) fn is_run_of(self, steps: u64) -> bool
        requires { AreAllOf self.bus self.passes.items self.saver }
    {
        let Shared {
            bus,
            passes,
            saver,
            mut start,
        } = self;
        let Closed { machine, order } = bus.close(passes, saver);
        replayed(&mut start, &order) && is_same(&start, &machine) && have_made(&machine, steps)
    }
}
