use bg_saver::{PhaseOut, SaveJob, Saver};
use flat_machine::Machine;
use medium::{FailPlan, MemMedium};
use ram_block::Shape;
use sliced_run::run_turns;
use std::alloc::Global;
use std::test::Fail;
use vm_stop::{Stopped, stop};
use vm_words::turns_of;

/// A machine that a test asks for and that can't be made, or can't be saved.
#[derive(Debug, Drop)]
pub(crate) struct NoMachine;

/// Two instructions: addi x5, x0, 1 and ecall.
pub(crate) const GUEST: [u8; 8] = [0x93, 0x02, 0x10, 0x00, 0x73, 0x00, 0x00, 0x00];

/// Each call from this number on fails; with none, no call does.
pub(crate) fn failing_from(alloc: Global, call: Option<u64>) -> FailPlan {
    FailPlan {
        calls: Vec::new(alloc),
        from: call,
    }
}

/// A machine at boot: one vCPU, so many blocks of so many pages, and this image.
pub(crate) fn shaped(
    alloc: Global,
    blocks: u64,
    pages: u64,
    image: &[u8],
) -> Result<Machine, Fail> {
    let shape = Shape::new(1, blocks, pages)?;
    if image.len() as u64 > shape.ram_bytes() {
        Err(NoMachine)?;
    }
    Ok(Machine::boot(alloc, shape, image, &[])?)
}

/// A machine at boot with the guest, in so many blocks of one page.
pub(crate) fn booted(alloc: Global, blocks: u64) -> Result<Machine, Fail> {
    shaped(alloc, blocks, 1, &GUEST)
}

/// A machine that is stopped for a save.
pub(crate) fn stopped(alloc: Global, machine: Machine) -> Result<Stopped, Fail> {
    if !machine.at_rest() {
        Err(NoMachine)?;
    }
    match stop(alloc, machine) {
        Ok(stopped) => Ok(stopped),
        Err((_, no_memory)) => Err(no_memory)?,
    }
}

/// The save of a machine whose guest goes on for two instructions, into this file; none where the save couldn't begin.
fn saved(alloc: Global, stopped: Stopped, file: &mut MemMedium) -> Result<Option<PhaseOut>, Fail> {
    let turns = turns_of(alloc, 0, stopped.machine().shape().vcpus(), 0)?;
    let Ok(saver) = Saver::begin(alloc, &stopped, file) else {
        return Ok(None);
    };
    let job = SaveJob {
        saver,
        medium: file,
    };
    match run_turns(alloc, stopped.into_machine(), 2, &turns, job) {
        Ok(out) => Ok(Some(out)),
        Err((_, no_memory)) => Err(no_memory)?,
    }
}

/// The file of a save of so many blocks, with room for so many bytes, in which each call from this number on fails; and what
/// is left of the phase.
pub(crate) fn cut_save(
    alloc: Global,
    blocks: u64,
    room: u64,
    call: u64,
) -> Result<(MemMedium, Option<PhaseOut>), Fail> {
    let plan = failing_from(alloc, Some(call));
    let mut file = MemMedium::new(alloc, Vec::new(alloc), room, 16, plan)?;
    let stopped = stopped(alloc, booted(alloc, blocks)?)?;
    let out = saved(alloc, stopped, &mut file)?;
    Ok((file, out))
}
