ghost use Rattle.std.specs.Prelude.{◌≡◌, ◌≤◌, ◌+◌, ℕ, List, [], None};
ghost use Rattle.flat_machine.specs.Machine.{MachineData, boot};
ghost use Rattle.image_file.specs.Image.{ReadsOn};
ghost use Rattle.image_file.specs.declared.raw.TheConstants.{MOST_IMAGE};
ghost use Rattle.medium.specs.Members.{file_state, sink_state, source_state};
ghost use Rattle.medium.specs.States.{Leaves};
ghost use Rattle.vm_words.specs.Limits.{IsRun};
ghost use Rattle.vm_cli.specs.Answer.{fault_in};
ghost use Rattle.vm_cli.specs.Jobs.Boot.{ReadsImage};
ghost use Rattle.vm_cli.specs.Jobs.Common.{Takes};
ghost use Rattle.vm_cli.specs.Jobs.Record.{StopsRecord, WritesOrder, record_steps};
ghost use Rattle.vm_cli.specs.Jobs.Save.{IsInstant};
ghost use Rattle.vm_cli.specs.Outside.{end_of};
ghost use Rattle.vm_cli.specs.Served.{OnThreads as on_threads};
ghost use Rattle.vm_cli.specs.Steps.{Faults, HasCause};
ghost use Rattle.vm_cli.specs.Work.{IsBeforeOutput, IsNotEmpty, IsUsage, IsWorkDone};
ghost use Rattle.vm_cli.specs.Write.{IsBeforeConsole, KeepsFull};
ghost use Rattle.vm_report.specs.Report.{report};

use crate::Fault;
use crate::boot::boot_image;
use crate::orders::Orders;
use crate::save_on_threads::reach_instant;
use crate::write::write_whole;
use medium::{Medium, Sink, Source};
use order_log::put_order;
use ram_block::{Gate, Shape};
use std::alloc::Global;
use std::sync::Wait;
use std::thread::Threads;
use vm_report::put_report;
use vm_words::Input;

/// Boots the machine of an image, runs a phase of it on threads, writes the order of the events to the output, and reports
/// the machine on the console. The gate is told of each event. The order is left in `orders`, once the phase has ended.
pub(crate) fn record_image<R: Threads + Wait + Sync, S: Source, M: Medium + Send, K: Sink, G: Gate>(
    rt: &R,
    alloc: Global,
    shape: &Shape,
    run: u32,
    serial: &Input,
    image: &mut S,
    output: &mut M,
    console: &mut K,
    gate: &G,
    orders: &mut Orders,
) -> Result<(), Fault>
    requires limits { IsRun shape.now run serial.now }
    requires first { orders.old.first.members ≡ [] }
    requires second { orders.old.second.members ≡ [] }
    ensures cause { (old : Faults) (new : Faults)
        → HasCause (record old { image = S.faults image.old; output = M.faults output.old; console = K.faults console.old }) (record new { image = S.faults image.new; output = M.faults output.new; console = K.faults console.new })
        (record_steps shape.now (source_state S.Source image.old) (file_state M.Readable output.old)) (fault_in result) }
    ensures done { IsWorkDone (fault_in result) → (bytes : List ℕ) × ReadsImage shape.now bytes (source_state S.Source image.old) (source_state S.Source image.new)
        × (after : MachineData) × IsInstant on_threads (boot shape.now bytes serial.now) run orders.new.first.members after
        × WritesOrder shape.now.vcpus orders.new.first.members (file_state M.Readable output.old) (file_state M.Readable output.new)
        × Takes (fault_in result) (report None after) (sink_state K.Sink console.old) (sink_state K.Sink console.new) }
    ensures stopped { IsBeforeConsole (fault_in result)
        → StopsRecord shape.now run serial.now (source_state S.Source image.old) (source_state S.Source image.new) (file_state M.Readable output.old) (file_state M.Readable output.new) (end_of (fault_in result) orders.new) }
    ensures second { orders.new.second ≡ orders.old.second }

    ensures words_stand { IsUsage (fault_in result) → ⊥ }
    ensures read { ReadsOn (MOST_IMAGE + 1) (source_state S.Source image.old) (source_state S.Source image.new) }
    ensures untouched { IsBeforeOutput (fault_in result) → output.new ≡ output.old }
    ensures not_empty { IsNotEmpty (fault_in result) → Leaves (file_state M.Readable output.old) (file_state M.Readable output.new) }
    ensures kept { KeepsFull (file_state M.Readable output.old) (file_state M.Readable output.new) }
    ensures silent { IsBeforeConsole (fault_in result) → console.new ≡ console.old }
    ensures count { K.faults console.old ≤ K.faults console.new }
{
    let machine = boot_image(alloc, shape, serial.bytes(), image)?;
    let (machine, order) = reach_instant::<R, M, G>(rt, alloc, machine, run, gate)?;
    orders.first = order;
    let text = put_order(alloc, &orders.first, shape.vcpus())?;
    write_whole(output, &text)?;
    put_report(None, &machine, console).map_err(|_| Fault::ConsoleFault)
}
