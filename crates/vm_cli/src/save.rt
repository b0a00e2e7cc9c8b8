ghost use Rattle.std.specs.Prelude.{◌≡◌, ◌⊎◌, ◌≤◌, ◌+◌, ℕ, List, [], ◌∷◌, length, All, Ok, Some, None, IfErr, IfOk};
ghost use Rattle.bg_saver.specs.declared.save_end.SaveEnd.TheVariants.{Complete as complete};
ghost use Rattle.bg_saver.specs.Save.{HasJustBegun};
ghost use Rattle.flat_machine.specs.Laws.{HasRoom};
ghost use Rattle.flat_machine.specs.Machine.{IsMachine, Rest, boot};
ghost use Rattle.image_file.specs.Image.{ReadsOn, image_of};
ghost use Rattle.image_file.specs.declared.raw.TheConstants.{MOST_IMAGE};
ghost use Rattle.file_plan.specs.Layout.{file_of};
ghost use Rattle.loader.specs.Loaded.{loaded};
ghost use Rattle.medium.specs.Members.{file_state, sink_state, source_state};
ghost use Rattle.medium.specs.States.{Leaves};
ghost use Rattle.ram_block.specs.declared.limits.TheConstants.{MAX_INPUT, MAX_PHASE};
ghost use Rattle.sliced_run.specs.Phase.{IsPhaseOf, LeavesFile};
ghost use Rattle.vm_words.specs.Limits.{IsSave};
ghost use Rattle.vm_words.specs.Turns.{IsTurn};
ghost use Rattle.vm_words.specs.declared.turns.TurnOf.{TurnOf as Turn_of};
ghost use Rattle.vm_words.specs.declared.job.Mode.TheVariants.{Sliced as sliced};
ghost use Rattle.vm_cli.specs.Answer.{fault_in};
ghost use Rattle.vm_cli.specs.Jobs.Common.{Takes, TakesReport, read_image_step};
ghost use Rattle.vm_cli.specs.Jobs.Boot.{ReadsImage};
ghost use Rattle.vm_cli.specs.Jobs.Save.{EndsEarly, EndsReported, IsInstant, KeepsImages, LeavesAtInstant, HasBegun, LeavesMachine, LeavesSaved, ReportsFailed, SavesMachine, report_of, save_machine_steps, save_steps};
ghost use Rattle.vm_cli.specs.Outside.{end_of};
ghost use Rattle.vm_cli.specs.Served.{Sliced as by_turns};
ghost use Rattle.vm_cli.specs.Steps.{Faults, HasCause, Passes, Step};
ghost use Rattle.vm_cli.specs.Work.{IsNotConsole, IsNotEmpty, IsUsage, IsWorkDone};
ghost use Rattle.vm_cli.specs.Write.{KeepsFull};
ghost use Rattle.vm_cli.specs.declared.answer.Fault.{Fault as A_fault};
ghost use Rattle.vm_cli.specs.declared.answer.Fault.TheVariants.{NoMemory as out_of_memory};

use crate::Fault;
use crate::boot::boot_image;
use crate::laws::a_saved_machine_loads_back;
use crate::orders::Orders;
use bg_saver::{PhaseOut, SaveEnd, SaveJob, Saver};
use flat_machine::{
    Machine, Order, a_phase_with_room_ends_at_rest, an_event_keeps_what_its_laws_need,
    an_event_leaves_the_rest,
};
use medium::{Medium, Sink, Source};
use ram_block::{NoMemory, Shape};
use sliced_run::run_turns;
use std::alloc::Global;
use vm_report::{SaveLine, put_report};
use vm_stop::Stopped;
use vm_words::{Input, Turns};

/// Boots the machine of an image, runs its first phase, saves it into the output while it runs its second, and reports
/// it on the console, all on one thread.
pub(crate) fn save_image<S: Source, M: Medium, K: Sink>(
    alloc: Global,
    shape: &Shape,
    serial: &Input,
    stop: u32,
    run: u32,
    turns: &Turns,
    image: &mut S,
    output: &mut M,
    console: &mut K,
    orders: &mut Orders,
) -> Result<(), Fault>
    requires limits { IsSave shape.now stop run sliced turns.now serial.now 0 }
    requires first { orders.old.first.members ≡ [] }
    requires second { orders.old.second.members ≡ [] }
    ensures cause { (old : Faults) (new : Faults)
        → HasCause (record old { image = S.faults image.old; output = M.faults output.old; console = K.faults console.old }) (record new { image = S.faults image.new; output = M.faults output.new; console = K.faults console.new })
        (save_steps shape.now (source_state S.Source image.old) (file_state M.Readable output.old)) (fault_in result) }
    ensures done { IsWorkDone (fault_in result) → (bytes : List ℕ) × ReadsImage shape.now bytes (source_state S.Source image.old) (source_state S.Source image.new)
        × (saved : SavesMachine (boot shape.now bytes serial.now) (record { stop = stop; run = run; way = by_turns turns.now }) (file_state M.Readable output.old) (file_state M.Readable output.new) (end_of (fault_in result) orders.new))
        × Takes (fault_in result) (report_of complete saved.out) (sink_state K.Sink console.old) (sink_state K.Sink console.new) }
    ensures failed { (fault : A_fault) → fault_in result ≡ Some fault → IsNotConsole fault
        → (EndsEarly shape.now serial.now (record { stop = stop; run = run; way = by_turns turns.now }) (source_state S.Source image.old) (source_state S.Source image.new) (output.new ≡ output.old) (file_state M.Readable output.old) (file_state M.Readable output.new) (end_of (fault_in result) orders.new) × (console.new ≡ console.old))
        ⊎ ((bytes : List ℕ) × ReadsImage shape.now bytes (source_state S.Source image.old) (source_state S.Source image.new)
        × ReportsFailed TakesReport (boot shape.now bytes serial.now) (record { stop = stop; run = run; way = by_turns turns.now }) (file_state M.Readable output.old) (file_state M.Readable output.new) (sink_state K.Sink console.old) (sink_state K.Sink console.new) (end_of (fault_in result) orders.new)) }

    ensures words_stand { IsUsage (fault_in result) → ⊥ }
    ensures read { ReadsOn (MOST_IMAGE + 1) (source_state S.Source image.old) (source_state S.Source image.new) }
    ensures not_empty { IsNotEmpty (fault_in result) → Leaves (file_state M.Readable output.old) (file_state M.Readable output.new) }
    ensures kept { KeepsFull (file_state M.Readable output.old) (file_state M.Readable output.new) }
    ensures count { K.faults console.old ≤ K.faults console.new }
{
    let machine = boot_image(alloc, shape, serial.bytes(), image)?;
    save_machine(alloc, machine, stop, run, turns, output, console, orders)
}

/// Runs the first phase of a booted machine, saves it into the output while it runs its second, and reports it on the
/// console. The order of each phase is left in `orders`, once its events are made.
pub(crate) fn save_machine<M: Medium, K: Sink>(
    alloc: Global,
    machine: Machine,
    stop: u32,
    run: u32,
    turns: &Turns,
    output: &mut M,
    console: &mut K,
    orders: &mut Orders,
) -> Result<(), Fault>
    requires rest { Rest machine }
    requires room { HasRoom machine stop }
    requires stop { stop ≤ MAX_PHASE }
    requires run { run ≤ MAX_PHASE }
    requires turns { All (IsTurn machine.shape.vcpus) turns.now }
    requires first { orders.old.first.members ≡ [] }
    requires second { orders.old.second.members ≡ [] }
    ensures cause { (old : Faults) (new : Faults)
        → HasCause (record old { output = M.faults output.old; console = K.faults console.old }) (record new { output = M.faults output.new; console = K.faults console.new })
        (save_machine_steps (file_state M.Readable output.old)) (fault_in result) }
    ensures done { IsWorkDone (fault_in result) → (saved : SavesMachine machine (record { stop = stop; run = run; way = by_turns turns.now }) (file_state M.Readable output.old) (file_state M.Readable output.new) (end_of (fault_in result) orders.new))
        × Takes (fault_in result) (report_of complete saved.out) (sink_state K.Sink console.old) (sink_state K.Sink console.new) }
    ensures failed { (fault : A_fault) → fault_in result ≡ Some fault → IsNotConsole fault
        → (LeavesMachine machine (record { stop = stop; run = run; way = by_turns turns.now }) (output.new ≡ output.old) (file_state M.Readable output.old) (file_state M.Readable output.new) (end_of (fault_in result) orders.new) × (console.new ≡ console.old))
        ⊎ ReportsFailed TakesReport machine (record { stop = stop; run = run; way = by_turns turns.now }) (file_state M.Readable output.old) (file_state M.Readable output.new) (sink_state K.Sink console.old) (sink_state K.Sink console.new) (end_of (fault_in result) orders.new) }

    ensures words_stand { IsUsage (fault_in result) → ⊥ }
    ensures not_empty { IsNotEmpty (fault_in result) → Leaves (file_state M.Readable output.old) (file_state M.Readable output.new) }
    ensures kept { KeepsFull (file_state M.Readable output.old) (file_state M.Readable output.new) }
    ensures count { K.faults console.old ≤ K.faults console.new }
{
    let mut machine = machine;
    orders.first = reach_instant(alloc, &mut machine, stop)?;
    let out = save_instant(alloc, machine, run, turns, output)?;
    end_save(out, console, orders)
}

// Runs the first phase of a booted machine by rounds, up to the instant.
fn reach_instant(alloc: Global, machine: &mut Machine, stop: u32) -> Result<Order, NoMemory>
    requires rest { Rest machine.old }
    requires room { HasRoom machine.old stop }
    requires stop { stop ≤ MAX_PHASE }
    ensures instant { IfOk result (λ order. (turns : List Turn_of) → IsInstant (by_turns turns) machine.old stop order.members machine.new) }
    ensures shape { IfOk result (λ _. machine.new.shape ≡ machine.old.shape) }
{
    a_phase_with_room_ends_at_rest();
    an_event_leaves_the_rest();
    an_event_keeps_what_its_laws_need();
    let _before = machine.clock();
    let order = machine.rounds(alloc, stop)?;
    let _after = machine.clock();
    Ok(order)
}

/// Stops the machine, begins its save on the output, and runs its second phase.
pub(crate) fn save_instant<M: Medium>(
    alloc: Global,
    machine: Machine,
    run: u32,
    turns: &Turns,
    output: &mut M,
) -> Result<PhaseOut, Fault>
    requires rest { Rest machine }
    requires run { run ≤ MAX_PHASE }
    requires turns { All (IsTurn machine.shape.vcpus) turns.now }
    ensures phase { IfOk result (IsPhaseOf machine run turns.now) }
    ensures saved { IfOk result (λ out. LeavesSaved machine out.saved (file_state M.Readable output.old) (file_state M.Readable output.new)) }
    ensures unsaved { IfErr result (λ fault. LeavesAtInstant machine (output.new ≡ output.old) (file_state M.Readable output.old) (file_state M.Readable output.new) (Some fault)) }
    ensures crash { KeepsImages machine (file_state M.Readable output.old) (file_state M.Readable output.new) }
    ensures kept { KeepsFull (file_state M.Readable output.old) (file_state M.Readable output.new) }
{
    let (stopped, saver) = begin_save(alloc, machine, output)?;
    run_saved(alloc, stopped, saver, run, turns, output)
}

/// Stops the machine and begins its save on the output.
pub(crate) fn begin_save<M: Medium>(
    alloc: Global,
    machine: Machine,
    output: &mut M,
) -> Result<(Stopped, Saver), Fault>
    requires rest { Rest machine }
    ensures begun { IfOk result (λ begun. HasBegun machine (file_state M.Readable output.old) (file_state M.Readable output.new) begun.0 begun.1) }
    ensures unsaved { IfErr result (λ fault. LeavesAtInstant machine (output.new ≡ output.old) (file_state M.Readable output.old) (file_state M.Readable output.new) (Some fault)) }
    ensures crash { KeepsImages machine (file_state M.Readable output.old) (file_state M.Readable output.new) }
    ensures kept { KeepsFull (file_state M.Readable output.old) (file_state M.Readable output.new) }
    ensures loads_back { loaded (file_of machine) ≡ Ok machine }
{
    a_saved_machine_loads_back();
    let Ok(stopped) = vm_stop::stop(alloc, machine) else {
        return Err(Fault::NoMemory);
    };
    let saver = Saver::begin(alloc, &stopped, output)?;
    Ok((stopped, saver))
}

// Runs the second phase of a machine whose save has just begun.
fn run_saved<M: Medium>(
    alloc: Global,
    stopped: Stopped,
    saver: Saver,
    run: u32,
    turns: &Turns,
    output: &mut M,
) -> Result<PhaseOut, Fault>
    requires rest { Rest stopped }
    requires run { run ≤ MAX_PHASE }
    requires turns { All (IsTurn stopped.shape.vcpus) turns.now }
    requires begun { HasJustBegun saver stopped (file_state M.Readable output.old) }
    ensures phase { IfOk result (IsPhaseOf stopped run turns.now) }
    ensures file { IfOk result (λ out. LeavesFile stopped out.saved (file_state M.Readable output.old) (file_state M.Readable output.new)) }
    ensures no_memory { IfErr result (λ fault. (fault ≡ out_of_memory) × (output.new ≡ output.old)) }
{
    let job = SaveJob {
        saver,
        medium: output,
    };
    match run_turns(alloc, stopped.into_machine(), run, turns, job) {
        Ok(out) => Ok(out),
        Err(_) => Err(Fault::NoMemory),
    }
}

/// Ends a job behind its second phase: the save is reported, and the order kept.
pub(crate) fn end_save<K: Sink>(
    out: PhaseOut,
    console: &mut K,
    orders: &mut Orders,
) -> Result<(), Fault>
    requires ended { (out.saved ≡ None) → ⊥ }
    ensures report { EndsReported out.saved out (fault_in result) (sink_state K.Sink console.old) (sink_state K.Sink console.new) }
    ensures first { orders.new.first ≡ orders.old.first }
    ensures second { orders.new.second ≡ out.order }
    ensures count { K.faults console.old ≤ K.faults console.new }
{
    let Some(end) = out.saved else { unreachable!() };
    let ended = report_save(end, &out, console);
    orders.second = out.order;
    ended
}

// Prints the report of a save that ended so, and says how the job ends: a save that failed is reported, too.
fn report_save<K: Sink>(end: SaveEnd, out: &PhaseOut, console: &mut K) -> Result<(), Fault>
    ensures report { EndsReported (Some end) out.now (fault_in result) (sink_state K.Sink console.old) (sink_state K.Sink console.new) }
    ensures count { K.faults console.old ≤ K.faults console.new }
{
    let line = SaveLine {
        end,
        blocked: out.blocked,
        counts: out.counts,
    };
    let reported = put_report(Some(line), &out.machine, console);
    match end {
        SaveEnd::Complete => reported.map_err(|_| Fault::ConsoleFault),
        SaveEnd::Failed => Err(Fault::FileFault),
    }
}
