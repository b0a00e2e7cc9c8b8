ghost use Rattle.std.specs.Prelude.{◌≡◌, ◌<◌, ◌≤◌, IfErr, IfOk, OnErr};
ghost use Rattle.ram_block.specs.declared.limits.TheConstants.{MAX_PHASE};
ghost use Rattle.medium.specs.Members.{file_state};
ghost use Rattle.flat_machine.specs.Machine.{Rest};
ghost use Rattle.bg_saver.specs.Save.{HasJustBegun};
ghost use Rattle.sliced_run.specs.Phase.{LeavesFile};
ghost use Rattle.bg_run.specs.Phase.{IsBounded, RunsPhase};
ghost use Rattle.write_pipe.specs.Relayed.{EndsRelayed, LeavesRelayed};
ghost use Rattle.write_pipe.specs.declared.relay_pages.TheConstants.{MAX_ROOM};

use crate::beside::run_over;
use bg_run::{OwnedEnd, blocked_of};
use bg_saver::{PhaseOut, SaveJob, Saver};
use flat_machine::Machine;
use medium::Medium;
use page_bus::Bus;
use plain_bus::Closed;
use ram_block::{Gate, NoMemory};
use std::alloc::Global;
use std::sync::Wait;
use std::thread::Threads;

/// Runs a phase on threads with a save over a relay that holds so many pages: one worker for each vCPU, one that copies
/// pages out of the bus, and one that saves them. It takes all its memory before the first event. The gate is told the
/// number of each turn of the copier before it, from 1 on, and of each event the vCPU behind it. The job is handed back with
/// its saver as the phase left it; the counts are the copier's.
pub fn run_relayed<R: Threads + Wait + Sync, M: Medium + Send, G: Gate>(
    rt: &R,
    alloc: Global,
    machine: Machine,
    run: u32,
    job: &mut SaveJob<'_, M>,
    room: u32,
    gate: &G,
) -> Result<PhaseOut, (Machine, NoMemory)>
    requires rest { Rest machine }
    requires most_run { run ≤ MAX_PHASE }
    requires begun { HasJustBegun job.old.saver machine (file_state M.Readable job.old.medium.now) }
    requires some_room { 0 < room }
    requires most_room { room ≤ MAX_ROOM }
    ensures phase { IfOk result (λ out. RunsPhase machine run out) }
    ensures job { IfOk result (λ out. LeavesRelayed M.Readable machine job.old job.new out) }
    ensures no_memory { IfErr result (λ e. e.0 ≡ machine) }
    ensures untouched { OnErr result (job.new ≡ job.old) }
{
    run_saved(
        rt,
        alloc,
        machine,
        run,
        &mut job.saver,
        job.medium,
        room,
        gate,
    )
}

// The phase with the parts of the job.
fn run_saved<R: Threads + Wait + Sync, M: Medium + Send, G: Gate>(
    rt: &R,
    alloc: Global,
    machine: Machine,
    run: u32,
    saver: &mut Saver,
    medium: &mut M,
    room: u32,
    gate: &G,
) -> Result<PhaseOut, (Machine, NoMemory)>
    requires rest { Rest machine }
    requires most_run { run ≤ MAX_PHASE }
    requires begun { HasJustBegun saver.old machine (file_state M.Readable medium.old) }
    requires some_room { 0 < room }
    requires most_room { room ≤ MAX_ROOM }
    ensures phase { IfOk result (λ out. RunsPhase machine run out) }
    ensures ends { IfOk result (λ out. EndsRelayed machine saver.new out) }
    ensures file { IfOk result (λ out. LeavesFile machine out.saved (file_state M.Readable medium.old) (file_state M.Readable medium.new)) }
    ensures no_memory { IfErr result (λ e. e.0 ≡ machine) }
    ensures same_saver { OnErr result (saver.new ≡ saver.old) }
    ensures untouched { OnErr result (medium.new ≡ medium.old) }
{
    let pages = machine.shape().total_pages();
    let (bus, mut passes, pass) = Bus::start(alloc, machine, run, true)?;
    let mut end = OwnedEnd { bus: &bus, pass };
    let ran = run_over(
        rt,
        alloc,
        &bus,
        &mut passes,
        &mut end,
        pages,
        saver,
        medium,
        room,
        gate,
    );
    let OwnedEnd { bus: _, pass } = end;
    match ran {
        Ok((saved, counts)) => {
            let blocked = blocked_of(&passes);
            let Closed { machine, order } = bus.close(passes, pass);
            Ok(PhaseOut {
                machine,
                order,
                saved: Some(saved),
                blocked,
                counts,
            })
        }
        Err(no_memory) => Err((bus.close(passes, pass).machine, no_memory)),
    }
}
