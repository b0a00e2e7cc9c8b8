use bg_run::run_threads;
use bg_saver::{PhaseOut, SaveJob, Saver};
use flat_machine::Machine;
use medium::{FailPlan, Medium, MemMedium};
use ram_block::{Gate, NoGate, Shape};
use std::alloc::Global;
use std::sync::Wait;
use std::test::Fail;
use std::thread::Threads;
use vm_stop::{Stopped, stop};

/// A machine that a test asks for and that can't be made, or can't be saved.
#[derive(Debug, Drop)]
pub(crate) struct NoMachine;

/// How many instructions a phase of a test has.
const RUN: u32 = 4;

/// A machine at boot: so many vCPUs, one block of so many pages, and this image.
pub(crate) fn booted(alloc: Global, vcpus: u64, pages: u64, image: &[u8]) -> Result<Machine, Fail> {
    let shape = Shape::new(vcpus, 1, pages)?;
    if image.len() as u64 > shape.ram_bytes() {
        Err(NoMachine)?;
    }
    Ok(Machine::boot(alloc, shape, image, &[])?)
}

/// What is left of a phase without a save.
pub(crate) fn ran<R: Threads + Wait + Sync>(
    rt: &R,
    alloc: Global,
    machine: Machine,
) -> Result<PhaseOut, Fail> {
    if !machine.at_rest() {
        Err(NoMachine)?;
    }
    let mut job: Option<SaveJob<'_, MemMedium>> = None;
    match run_threads(rt, alloc, machine, RUN, &mut job, &NoGate) {
        Ok(out) => Ok(out),
        Err((_, no_memory)) => Err(no_memory)?,
    }
}

/// What is left of a phase with a save of the machine into this file; none where the save couldn't begin.
pub(crate) fn saved<R: Threads + Wait + Sync, M: Medium + Send, G: Gate>(
    rt: &R,
    alloc: Global,
    machine: Machine,
    file: &mut M,
    gate: &G,
) -> Result<Option<PhaseOut>, Fail> {
    let stopped = stopped(alloc, machine)?;
    let Ok(saver) = Saver::begin(alloc, &stopped, file) else {
        return Ok(None);
    };
    let mut job = Some(SaveJob {
        saver,
        medium: file,
    });
    match run_threads(rt, alloc, stopped.into_machine(), RUN, &mut job, gate) {
        Ok(out) => Ok(Some(out)),
        Err((_, no_memory)) => Err(no_memory)?,
    }
}

fn stopped(alloc: Global, machine: Machine) -> Result<Stopped, Fail> {
    if !machine.at_rest() {
        Err(NoMachine)?;
    }
    match stop(alloc, machine) {
        Ok(stopped) => Ok(stopped),
        Err((_, no_memory)) => Err(no_memory)?,
    }
}

/// An empty file with room for so many bytes, in which each call from this number on fails.
pub(crate) fn failing_from(alloc: Global, room: u64, call: Option<u64>) -> Result<MemMedium, Fail> {
    let plan = FailPlan {
        calls: Vec::new(alloc),
        from: call,
    };
    Ok(MemMedium::new(alloc, Vec::new(alloc), room, 16, plan)?)
}
