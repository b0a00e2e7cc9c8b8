ghost use Rattle.std.specs.Prelude.{◌≡◌, ◌≤◌, All, IfErr, IfOk, IfSome, OnErr, Some, length};
ghost use Rattle.std.specs.Thread.{IsSync};
ghost use Rattle.ram_block.specs.declared.limits.TheConstants.{MAX_PHASE};
ghost use Rattle.ram_block.specs.declared.shape.TheConstants.{MAX_VCPUS};
ghost use Rattle.medium.specs.Members.{file_state};
ghost use Rattle.flat_machine.specs.Machine.{Rest};
ghost use Rattle.page_bus.specs.Plant.{end_state};
ghost use Rattle.bg_saver.specs.Save.{HasJustBegun, IsOfSave, IsUnderWay};
ghost use Rattle.sliced_run.specs.Phase.{LeavesFile};
ghost use Rattle.bg_run.specs.Phase.{EndsAlone, EndsSaved, LeavesJob, RunsPhase};
ghost use Rattle.bg_run.specs.Workers.{AreStepped, EndsSave, instant_of};

use crate::blocked::blocked_of;
use crate::owned_end::OwnedEnd;
use crate::saving::save;
use crate::stepping::step_all;
use bg_saver::{Counts, PhaseOut, SaveEnd, SaveJob, Saver};
use flat_machine::Machine;
use medium::Medium;
use page_bus::{Bus, VcpuPass};
use plain_bus::Closed;
use ram_block::{Gate, NoMemory};
use std::alloc::Global;
use std::sync::Wait;
use std::thread::{Threads, join_mut};

/// Runs a phase on threads, one for each vCPU and, where there is a job, one for its saver. It takes all its memory first.
/// The gate is told the number of each turn of the saver before it, from 1 on, and of each event the vCPU behind it. The job
/// is handed back with its saver as the phase left it.
pub fn run_threads<R: Threads + Wait + Sync, M: Medium + Send, G: Gate>(
    rt: &R,
    alloc: Global,
    machine: Machine,
    run: u32,
    job: &mut Option<SaveJob<'_, M>>,
    gate: &G,
) -> Result<PhaseOut, (Machine, NoMemory)>
    requires rest { Rest machine }
    requires most { run ≤ MAX_PHASE }
    requires begun { IfSome job.old (λ j. HasJustBegun j.saver machine (file_state M.Readable j.medium.now)) }
    ensures phase { IfOk result (λ out. RunsPhase machine run out) }
    ensures job { IfOk result (λ out. LeavesJob M.Readable machine job.old job.new out) }
    ensures no_memory { IfErr result (λ e. e.0 ≡ machine) }
    ensures untouched { OnErr result (job.new ≡ job.old) }
{
    match job {
        Some(job) => run_saved(rt, alloc, machine, run, &mut job.saver, job.medium, gate),
        None => run_alone(rt, alloc, machine, run, gate),
    }
}

// The phase with a save.
fn run_saved<R: Threads + Wait + Sync, M: Medium + Send, G: Gate>(
    rt: &R,
    alloc: Global,
    machine: Machine,
    run: u32,
    saver: &mut Saver,
    medium: &mut M,
    gate: &G,
) -> Result<PhaseOut, (Machine, NoMemory)>
    requires rest { Rest machine }
    requires most { run ≤ MAX_PHASE }
    requires begun { HasJustBegun saver.old machine (file_state M.Readable medium.old) }
    ensures phase { IfOk result (λ out. RunsPhase machine run out) }
    ensures ends { IfOk result (λ out. EndsSaved machine saver.new out) }
    ensures file { IfOk result (λ out. LeavesFile machine out.saved (file_state M.Readable medium.old) (file_state M.Readable medium.new)) }
    ensures no_memory { IfErr result (λ e. e.0 ≡ machine) }
    ensures same_saver { OnErr result (saver.new ≡ saver.old) }
    ensures untouched { OnErr result (medium.new ≡ medium.old) }
{
    let (bus, mut passes, pass) = Bus::start(alloc, machine, run, true)?;
    let mut end = OwnedEnd { bus: &bus, pass };
    let saved = run_beside(rt, &bus, &mut passes, &mut end, saver, medium, gate);
    let OwnedEnd { bus: _, pass } = end;
    let blocked = blocked_of(&passes);
    let Closed { machine, order } = bus.close(passes, pass);
    Ok(PhaseOut {
        machine,
        order,
        saved: Some(saved),
        blocked,
        counts: saver.counts(),
    })
}

// The workers of all vCPUs, and beside them the saver's.
fn run_beside<R: Threads + Wait + Sync, M: Medium + Send, G: Gate>(
    rt: &R,
    bus: &Bus,
    passes: &mut Vec<VcpuPass>,
    end: &mut OwnedEnd<'_>,
    saver: &mut Saver,
    medium: &mut M,
    gate: &G,
) -> SaveEnd
    requires tables { All (λ p. p.table ≡ bus.now.table) passes.old.items }
    requires count { length passes.old.items ≤ MAX_VCPUS }
    requires save { IsOfSave saver.old (end_state end.old.bus.now end.old.pass) }
    requires way { IsUnderWay saver.old (instant_of end.old.pass) (end_state end.old.bus.now end.old.pass) (file_state M.Readable medium.old) }
    ensures stepped { AreStepped passes.old.items passes.new.items }
    ensures ends { EndsSave end.old.bus.now end.old.pass result end.new.bus.now end.new.pass saver.new }
    ensures file { LeavesFile (instant_of end.old.pass) (Some result) (file_state M.Readable medium.old) (file_state M.Readable medium.new) }
{
    let (saved, ()) = join_mut(
        rt,
        &mut || -> SaveEnd
            requires { IsSync R.row × IsOfSave saver.now (end_state end.now.bus.now end.now.pass) × IsUnderWay saver.now (instant_of end.now.pass) (end_state end.now.bus.now end.now.pass) (file_state M.Readable medium.now) }
            ensures ends { EndsSave end.entry.now.bus.now end.entry.now.pass result end.exit.now.bus.now end.exit.now.pass saver.exit.now }
            ensures file { LeavesFile (instant_of end.entry.now.pass) (Some result) (file_state M.Readable medium.entry.now) (file_state M.Readable medium.exit.now) }
        { save(rt, end, saver, medium, gate) },
        &mut ||
            requires { IsSync R.row × All (λ p. p.table ≡ bus.now.table) passes.now.items × (length passes.now.items ≤ MAX_VCPUS) }
            ensures { AreStepped passes.entry.now.items passes.exit.now.items }
        { step_all(rt, bus, passes, gate) },
    );
    saved
}

// The phase without a save. No page is protected, so no vCPU is ever stopped.
fn run_alone<R: Threads + Wait + Sync, G: Gate>(
    rt: &R,
    alloc: Global,
    machine: Machine,
    run: u32,
    gate: &G,
) -> Result<PhaseOut, (Machine, NoMemory)>
    requires rest { Rest machine }
    requires most { run ≤ MAX_PHASE }
    ensures phase { IfOk result (λ out. RunsPhase machine run out) }
    ensures ends { IfOk result EndsAlone }
    ensures no_memory { IfErr result (λ e. e.0 ≡ machine) }
{
    let (bus, mut passes, pass) = Bus::start(alloc, machine, run, false)?;
    step_all(rt, &bus, &mut passes, gate);
    let Closed { machine, order } = bus.close(passes, pass);
    Ok(PhaseOut {
        machine,
        order,
        saved: None,
        blocked: 0,
        counts: Counts {
            faults: 0,
            sweep: 0,
        },
    })
}
