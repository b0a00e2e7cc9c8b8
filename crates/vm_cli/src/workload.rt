ghost use Rattle.std.specs.Prelude.{◌≡◌, ◌⊎◌, ◌≤◌, ◌++◌, [], Some, IfOk};
ghost use Rattle.bg_saver.specs.declared.save_end.SaveEnd.TheVariants.{Complete as complete};
ghost use Rattle.flat_machine.specs.Machine.{Rest};
ghost use Rattle.medium.specs.Members.{file_state, sink_state};
ghost use Rattle.medium.specs.States.{Leaves};
ghost use Rattle.ram_block.specs.Shape.{ShapeData};
ghost use Rattle.vm_cli.specs.Answer.{fault_in};
ghost use Rattle.vm_cli.specs.Jobs.Common.{Takes, TakesReport, TakesWhole};
ghost use Rattle.vm_cli.specs.Jobs.Save.{LeavesMachine, SavesMachine, report_of};
ghost use Rattle.vm_cli.specs.Jobs.Workload.{FailsWorkload, IsCheckedShape, workload_machine, workload_phases, workload_steps};
ghost use Rattle.vm_cli.specs.Outside.{end_of};
ghost use Rattle.vm_cli.specs.Steps.{Faults, HasCause};
ghost use Rattle.vm_cli.specs.Work.{IsNotConsole, IsNotEmpty, IsUsage, IsWorkDone};
ghost use Rattle.vm_cli.specs.Write.{KeepsFull};
ghost use Rattle.vm_cli.specs.declared.answer.Fault.{Fault as A_fault};
ghost use Rattle.vm_report.specs.Report.{ok_line};

use crate::Fault;
use crate::check::check_input;
use crate::orders::Orders;
use crate::save::save_machine;
use flat_machine::Machine;
use loader::a_file_is_loaded_or_refused;
use medium::{Medium, Sink};
use ram_block::{NoMemory, Shape};
use std::alloc::Global;
use vm_words::{MAX_TURNS, turns_of, workload_image};

/// The shape of the workload's machine.
const VCPUS: u32 = 4;

const BLOCKS: u32 = 2;

const PAGES: u32 = 256;

/// How many instructions each vCPU has in the workload's first phase, and in its second.
const STOP: u32 = 100;

const RUN: u32 = 500;

/// Saves the guest that a seed gives into the output while it runs, reports it on the console, and checks the output.
pub(crate) fn save_workload<M: Medium, K: Sink>(
    alloc: Global,
    seed: u64,
    output: &mut M,
    console: &mut K,
    orders: &mut Orders,
) -> Result<(), Fault>
    requires first { orders.old.first.members ≡ [] }
    requires second { orders.old.second.members ≡ [] }
    ensures cause { (old : Faults) (new : Faults)
        → HasCause (record old { output = M.faults output.old; console = K.faults console.old }) (record new { output = M.faults output.new; console = K.faults console.new })
        (workload_steps (file_state M.Readable output.old)) (fault_in result) }
    ensures done { IsWorkDone (fault_in result) → (saved : SavesMachine (workload_machine seed) (workload_phases seed) (file_state M.Readable output.old) (file_state M.Readable output.new) (end_of (fault_in result) orders.new))
        × (checked : ShapeData) × IsCheckedShape (M.told output.old) checked × Takes (fault_in result) (report_of complete saved.out ++ ok_line checked) (sink_state K.Sink console.old) (sink_state K.Sink console.new) }
    ensures failed { (fault : A_fault) → fault_in result ≡ Some fault → IsNotConsole fault
        → (LeavesMachine (workload_machine seed) (workload_phases seed) (output.new ≡ output.old) (file_state M.Readable output.old) (file_state M.Readable output.new) (end_of (fault_in result) orders.new) × (console.new ≡ console.old))
        ⊎ FailsWorkload TakesReport TakesWhole seed fault (file_state M.Readable output.old) (file_state M.Readable output.new) (sink_state K.Sink console.old) (sink_state K.Sink console.new) (end_of (fault_in result) orders.new) }

    ensures words_stand { IsUsage (fault_in result) → ⊥ }
    ensures not_empty { IsNotEmpty (fault_in result) → Leaves (file_state M.Readable output.old) (file_state M.Readable output.new) }
    ensures kept { KeepsFull (file_state M.Readable output.old) (file_state M.Readable output.new) }
    ensures count { K.faults console.old ≤ K.faults console.new }
{
    a_file_is_loaded_or_refused();
    let turns = turns_of(alloc, seed, VCPUS, MAX_TURNS as u32)?;
    let machine = boot_workload(alloc, seed)?;
    save_machine(alloc, machine, STOP, RUN, &turns, output, console, orders)?;
    check_input(alloc, output, console)
}

// The machine that boots with the image of the workload.
fn boot_workload(alloc: Global, seed: u64) -> Result<Machine, NoMemory>
    ensures booted { IfOk result (λ b. b ≡ workload_machine seed) }
    ensures rest { IfOk result Rest }
{
    let Ok(shape) = Shape::new(u64::from(VCPUS), u64::from(BLOCKS), u64::from(PAGES)) else {
        unreachable!()
    };
    let image = workload_image(alloc, seed)?;
    Machine::boot(alloc, shape, &image, &[])
}
