// A save whose two phases run on threads: one for each vCPU, and in the second one for the saver, or two over a relay.
ghost use Rattle.std.specs.Prelude.{◌≡◌, ◌⊎◌, ◌<◌, ◌≤◌, ◌+◌, ℕ, List, [], None, IfErr, IfOk};
ghost use Rattle.bg_saver.specs.declared.save_end.SaveEnd.TheVariants.{Complete as complete};
ghost use Rattle.bg_saver.specs.Save.{HasJustBegun};
ghost use Rattle.flat_machine.specs.Laws.{HasRoom};
ghost use Rattle.flat_machine.specs.Machine.{Rest, boot};
ghost use Rattle.image_file.specs.Image.{ReadsOn};
ghost use Rattle.image_file.specs.declared.raw.TheConstants.{MOST_IMAGE};
ghost use Rattle.medium.specs.Members.{file_state, sink_state, source_state};
ghost use Rattle.medium.specs.States.{Leaves};
ghost use Rattle.ram_block.specs.declared.limits.TheConstants.{MAX_PHASE};
ghost use Rattle.sliced_run.specs.Phase.{LeavesFile};
ghost use Rattle.vm_words.specs.Limits.{IsSave};
ghost use Rattle.vm_words.specs.declared.job.Mode.TheVariants.{Threads as in_threads};
ghost use Rattle.vm_cli.specs.Answer.{fault_in};
ghost use Rattle.vm_cli.specs.Jobs.Common.{Takes, TakesReport};
ghost use Rattle.vm_cli.specs.Jobs.Boot.{ReadsImage};
ghost use Rattle.vm_cli.specs.Jobs.Save.{EndsEarly, IsInstant, KeepsImages, LeavesAtInstant, LeavesMachine, LeavesSaved, ReportsFailed, RunsBeside, SavesMachine, report_of, save_machine_steps, save_steps};
ghost use Rattle.vm_cli.specs.Outside.{end_of};
ghost use Rattle.vm_cli.specs.Served.{OnThreads as on_threads};
ghost use Rattle.vm_cli.specs.Steps.{Faults, HasCause};
ghost use Rattle.vm_cli.specs.Work.{IsNotConsole, IsNotEmpty, IsUsage, IsWorkDone};
ghost use Rattle.vm_cli.specs.Write.{KeepsFull};
ghost use Rattle.write_pipe.specs.declared.relay_pages.TheConstants.{MAX_ROOM};
ghost use Rattle.vm_cli.specs.declared.answer.Fault.{Fault as A_fault};
ghost use Rattle.vm_cli.specs.declared.answer.Fault.TheVariants.{NoMemory as out_of_memory};

use crate::Fault;
use crate::boot::boot_image;
use crate::orders::Orders;
use crate::save::{begin_save, end_save};
use bg_run::run_threads;
use bg_saver::{PhaseOut, SaveJob, Saver};
use flat_machine::{
    Machine, Order, a_phase_with_room_ends_at_rest, an_event_keeps_what_its_laws_need,
    an_event_leaves_the_rest,
};
use medium::{Medium, Sink, Source};
use ram_block::{Gate, NoGate, NoMemory, Shape};
use std::alloc::Global;
use std::sync::Wait;
use std::thread::Threads;
use vm_stop::Stopped;
use vm_words::Input;
use write_pipe::run_relayed;

/// Boots the machine of an image, runs its first phase, saves it into the output while it runs its second, and reports
/// it on the console, each phase on threads. The gate is told of the second. `relay` is the number of pages that fit between
/// the worker that copies them and the one that writes them; where it is 0, one worker does both.
pub(crate) fn save_image_on_threads<
    R: Threads + Wait + Sync,
    S: Source,
    M: Medium + Send,
    K: Sink,
    G: Gate,
>(
    rt: &R,
    alloc: Global,
    shape: &Shape,
    serial: &Input,
    stop: u32,
    run: u32,
    relay: u32,
    image: &mut S,
    output: &mut M,
    console: &mut K,
    gate: &G,
    orders: &mut Orders,
) -> Result<(), Fault>
    requires limits { IsSave shape.now stop run in_threads [] serial.now relay }
    requires first { orders.old.first.members ≡ [] }
    requires second { orders.old.second.members ≡ [] }
    ensures cause { (old : Faults) (new : Faults)
        → HasCause (record old { image = S.faults image.old; output = M.faults output.old; console = K.faults console.old }) (record new { image = S.faults image.new; output = M.faults output.new; console = K.faults console.new })
        (save_steps shape.now (source_state S.Source image.old) (file_state M.Readable output.old)) (fault_in result) }
    ensures done { IsWorkDone (fault_in result) → (bytes : List ℕ) × ReadsImage shape.now bytes (source_state S.Source image.old) (source_state S.Source image.new)
        × (saved : SavesMachine (boot shape.now bytes serial.now) (record { stop = stop; run = run; way = on_threads }) (file_state M.Readable output.old) (file_state M.Readable output.new) (end_of (fault_in result) orders.new))
        × Takes (fault_in result) (report_of complete saved.out) (sink_state K.Sink console.old) (sink_state K.Sink console.new) }
    ensures failed { (fault : A_fault) → fault_in result ≡ Some fault → IsNotConsole fault
        → (EndsEarly shape.now serial.now (record { stop = stop; run = run; way = on_threads }) (source_state S.Source image.old) (source_state S.Source image.new) (output.new ≡ output.old) (file_state M.Readable output.old) (file_state M.Readable output.new) (end_of (fault_in result) orders.new) × (console.new ≡ console.old))
        ⊎ ((bytes : List ℕ) × ReadsImage shape.now bytes (source_state S.Source image.old) (source_state S.Source image.new)
        × ReportsFailed TakesReport (boot shape.now bytes serial.now) (record { stop = stop; run = run; way = on_threads }) (file_state M.Readable output.old) (file_state M.Readable output.new) (sink_state K.Sink console.old) (sink_state K.Sink console.new) (end_of (fault_in result) orders.new)) }

    ensures words_stand { IsUsage (fault_in result) → ⊥ }
    ensures read { ReadsOn (MOST_IMAGE + 1) (source_state S.Source image.old) (source_state S.Source image.new) }
    ensures not_empty { IsNotEmpty (fault_in result) → Leaves (file_state M.Readable output.old) (file_state M.Readable output.new) }
    ensures kept { KeepsFull (file_state M.Readable output.old) (file_state M.Readable output.new) }
    ensures count { K.faults console.old ≤ K.faults console.new }
{
    let machine = boot_image(alloc, shape, serial.bytes(), image)?;
    save_machine(
        rt, alloc, machine, stop, run, relay, output, console, gate, orders,
    )
}

// Runs the first phase of a booted machine, saves it into the output while it runs its second, and reports it on the console.
fn save_machine<R: Threads + Wait + Sync, M: Medium + Send, K: Sink, G: Gate>(
    rt: &R,
    alloc: Global,
    machine: Machine,
    stop: u32,
    run: u32,
    relay: u32,
    output: &mut M,
    console: &mut K,
    gate: &G,
    orders: &mut Orders,
) -> Result<(), Fault>
    requires rest { Rest machine }
    requires room { HasRoom machine stop }
    requires stop { stop ≤ MAX_PHASE }
    requires run { run ≤ MAX_PHASE }
    requires relay { relay ≤ MAX_ROOM }
    requires first { orders.old.first.members ≡ [] }
    requires second { orders.old.second.members ≡ [] }
    ensures cause { (old : Faults) (new : Faults)
        → HasCause (record old { output = M.faults output.old; console = K.faults console.old }) (record new { output = M.faults output.new; console = K.faults console.new })
        (save_machine_steps (file_state M.Readable output.old)) (fault_in result) }
    ensures done { IsWorkDone (fault_in result) → (saved : SavesMachine machine (record { stop = stop; run = run; way = on_threads }) (file_state M.Readable output.old) (file_state M.Readable output.new) (end_of (fault_in result) orders.new))
        × Takes (fault_in result) (report_of complete saved.out) (sink_state K.Sink console.old) (sink_state K.Sink console.new) }
    ensures failed { (fault : A_fault) → fault_in result ≡ Some fault → IsNotConsole fault
        → (LeavesMachine machine (record { stop = stop; run = run; way = on_threads }) (output.new ≡ output.old) (file_state M.Readable output.old) (file_state M.Readable output.new) (end_of (fault_in result) orders.new) × (console.new ≡ console.old))
        ⊎ ReportsFailed TakesReport machine (record { stop = stop; run = run; way = on_threads }) (file_state M.Readable output.old) (file_state M.Readable output.new) (sink_state K.Sink console.old) (sink_state K.Sink console.new) (end_of (fault_in result) orders.new) }

    ensures words_stand { IsUsage (fault_in result) → ⊥ }
    ensures not_empty { IsNotEmpty (fault_in result) → Leaves (file_state M.Readable output.old) (file_state M.Readable output.new) }
    ensures kept { KeepsFull (file_state M.Readable output.old) (file_state M.Readable output.new) }
    ensures count { K.faults console.old ≤ K.faults console.new }
{
    let (machine, first) = reach_instant::<R, M, NoGate>(rt, alloc, machine, stop, &NoGate)?;
    orders.first = first;
    let out = save_instant(rt, alloc, machine, run, relay, output, gate)?;
    end_save(out, console, orders)
}

/// Runs a phase of a booted machine with no save beside it, as up to the instant of one. The gate is told of each event.
pub(crate) fn reach_instant<R: Threads + Wait + Sync, M: Medium + Send, G: Gate>(
    rt: &R,
    alloc: Global,
    machine: Machine,
    stop: u32,
    gate: &G,
) -> Result<(Machine, Order), NoMemory>
    requires rest { Rest machine }
    requires room { HasRoom machine stop }
    requires stop { stop ≤ MAX_PHASE }
    ensures instant { IfOk result (λ reached. IsInstant on_threads machine stop reached.1.members reached.0) }
{
    a_phase_with_room_ends_at_rest();
    an_event_leaves_the_rest();
    an_event_keeps_what_its_laws_need();
    let _before = machine.clock();
    let mut no_job: Option<SaveJob<'_, M>> = None;
    match run_threads(rt, alloc, machine, stop, &mut no_job, gate) {
        Ok(out) => Ok((out.machine, out.order)),
        Err((_, no_memory)) => Err(no_memory),
    }
}

// Stops the machine, begins its save on the output, and runs its second phase.
fn save_instant<R: Threads + Wait + Sync, M: Medium + Send, G: Gate>(
    rt: &R,
    alloc: Global,
    machine: Machine,
    run: u32,
    relay: u32,
    output: &mut M,
    gate: &G,
) -> Result<PhaseOut, Fault>
    requires rest { Rest machine }
    requires run { run ≤ MAX_PHASE }
    requires relay { relay ≤ MAX_ROOM }
    ensures phase { IfOk result (RunsBeside machine run) }
    ensures ended { IfOk result (λ out. (out.saved ≡ None) → ⊥) }
    ensures saved { IfOk result (λ out. LeavesSaved machine out.saved (file_state M.Readable output.old) (file_state M.Readable output.new)) }
    ensures unsaved { IfErr result (λ fault. LeavesAtInstant machine (output.new ≡ output.old) (file_state M.Readable output.old) (file_state M.Readable output.new) (Some fault)) }
    ensures crash { KeepsImages machine (file_state M.Readable output.old) (file_state M.Readable output.new) }
    ensures kept { KeepsFull (file_state M.Readable output.old) (file_state M.Readable output.new) }
{
    let (stopped, saver) = begin_save(alloc, machine, output)?;
    run_saved(rt, alloc, stopped, saver, run, relay, output, gate)
}

// Runs the second phase of a machine whose save has just begun, over a relay where it holds a page.
fn run_saved<R: Threads + Wait + Sync, M: Medium + Send, G: Gate>(
    rt: &R,
    alloc: Global,
    stopped: Stopped,
    saver: Saver,
    run: u32,
    relay: u32,
    output: &mut M,
    gate: &G,
) -> Result<PhaseOut, Fault>
    requires rest { Rest stopped }
    requires run { run ≤ MAX_PHASE }
    requires relay { relay ≤ MAX_ROOM }
    requires begun { HasJustBegun saver stopped (file_state M.Readable output.old) }
    ensures phase { IfOk result (RunsBeside stopped run) }
    ensures ended { IfOk result (λ out. (out.saved ≡ None) → ⊥) }
    ensures file { IfOk result (λ out. LeavesFile stopped out.saved (file_state M.Readable output.old) (file_state M.Readable output.new)) }
    ensures no_memory { IfErr result (λ fault. (fault ≡ out_of_memory) × (output.new ≡ output.old)) }
{
    match relay {
        0 => run_without_relay(rt, alloc, stopped, saver, run, output, gate),
        room => run_with_relay(rt, alloc, stopped, saver, run, room, output, gate),
    }
}

// The second phase, beside which one worker copies each page and writes it.
fn run_without_relay<R: Threads + Wait + Sync, M: Medium + Send, G: Gate>(
    rt: &R,
    alloc: Global,
    stopped: Stopped,
    saver: Saver,
    run: u32,
    output: &mut M,
    gate: &G,
) -> Result<PhaseOut, Fault>
    requires rest { Rest stopped }
    requires run { run ≤ MAX_PHASE }
    requires begun { HasJustBegun saver stopped (file_state M.Readable output.old) }
    ensures phase { IfOk result (RunsBeside stopped run) }
    ensures ended { IfOk result (λ out. (out.saved ≡ None) → ⊥) }
    ensures file { IfOk result (λ out. LeavesFile stopped out.saved (file_state M.Readable output.old) (file_state M.Readable output.new)) }
    ensures no_memory { IfErr result (λ fault. (fault ≡ out_of_memory) × (output.new ≡ output.old)) }
{
    let mut job = Some(SaveJob {
        saver,
        medium: &mut *output,
    });
    let phase = run_threads(rt, alloc, stopped.into_machine(), run, &mut job, gate);
    let Some(
        SaveJob {
            saver: _saver,
            medium: _medium,
        },
    ) = job
    else {
        unreachable!()
    };
    match phase {
        Ok(out) => Ok(out),
        Err(_) => Err(Fault::NoMemory),
    }
}

// The second phase, beside which one worker copies the pages and another writes them, over a relay that has room for so many.
fn run_with_relay<R: Threads + Wait + Sync, M: Medium + Send, G: Gate>(
    rt: &R,
    alloc: Global,
    stopped: Stopped,
    saver: Saver,
    run: u32,
    room: u32,
    output: &mut M,
    gate: &G,
) -> Result<PhaseOut, Fault>
    requires rest { Rest stopped }
    requires run { run ≤ MAX_PHASE }
    requires some { 0 < room }
    requires room { room ≤ MAX_ROOM }
    requires begun { HasJustBegun saver stopped (file_state M.Readable output.old) }
    ensures phase { IfOk result (RunsBeside stopped run) }
    ensures ended { IfOk result (λ out. (out.saved ≡ None) → ⊥) }
    ensures file { IfOk result (λ out. LeavesFile stopped out.saved (file_state M.Readable output.old) (file_state M.Readable output.new)) }
    ensures no_memory { IfErr result (λ fault. (fault ≡ out_of_memory) × (output.new ≡ output.old)) }
{
    let mut job = SaveJob {
        saver,
        medium: &mut *output,
    };
    let phase = run_relayed(rt, alloc, stopped.into_machine(), run, &mut job, room, gate);
    let SaveJob {
        saver: _saver,
        medium: _medium,
    } = job;
    match phase {
        Ok(out) => Ok(out),
        Err(_) => Err(Fault::NoMemory),
    }
}
