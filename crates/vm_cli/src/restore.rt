ghost use Rattle.std.specs.Prelude.{◌≡◌, ◌≤◌, None};
ghost use Rattle.flat_machine.specs.Machine.{MachineData};
ghost use Rattle.medium.specs.Members.{file_state, sink_state};
ghost use Rattle.medium.specs.States.{Leaves};
ghost use Rattle.ram_block.specs.declared.limits.TheConstants.{MAX_PHASE};
ghost use Rattle.vm_cli.specs.Answer.{fault_in};
ghost use Rattle.vm_cli.specs.Jobs.Common.{Takes};
ghost use Rattle.vm_cli.specs.Jobs.Load.{load_and_print_steps};
ghost use Rattle.vm_cli.specs.Jobs.Restore.{RunsOn};
ghost use Rattle.vm_cli.specs.Steps.{Faults, HasCause};
ghost use Rattle.vm_cli.specs.Work.{IsUsage, IsWorkDone};
ghost use Rattle.vm_cli.specs.Write.{IsBeforeConsole};
ghost use Rattle.vm_report.specs.Report.{report};

use crate::Fault;
use flat_machine::Order;
use loader::load;
use medium::{Medium, Sink};
use std::alloc::Global;
use vm_report::put_report;

/// Loads the machine of the input, runs it for n instructions of each vCPU by rounds, and prints its report on the
/// console. The order of the events is left in `order`, once they are made.
#[tactic(auto, using(crate::proofs::Loads::unloaded, crate::proofs::Loads::loaded_passes))]
pub(crate) fn restore_input<M: Medium, K: Sink>(
    alloc: Global,
    n: u32,
    input: &mut M,
    console: &mut K,
    order: &mut Order,
) -> Result<(), Fault>
    requires { n ≤ MAX_PHASE }
    ensures cause { (old : Faults) (new : Faults)
        → HasCause (record old { input = M.faults input.old; console = K.faults console.old }) (record new { input = M.faults input.new; console = K.faults console.new })
        (load_and_print_steps (file_state M.Readable input.old)) (fault_in result) }
    ensures done { IsWorkDone (fault_in result) → (after : MachineData)
        × RunsOn n (file_state M.Readable input.old) order.new.members after
        × Takes (fault_in result) (report None after) (sink_state K.Sink console.old) (sink_state K.Sink console.new) }
    ensures no_phase { (IsWorkDone (fault_in result) → ⊥) → order.new ≡ order.old }

    ensures words_stand { IsUsage (fault_in result) → ⊥ }
    ensures leaves { Leaves (file_state M.Readable input.old) (file_state M.Readable input.new) }
    ensures silent { IsBeforeConsole (fault_in result) → console.new ≡ console.old }
    ensures count { K.faults console.old ≤ K.faults console.new }
{
    let mut machine = load(alloc, input)?;
    *order = machine.rounds(alloc, n)?;
    put_report(None, &machine, console).map_err(|_| Fault::ConsoleFault)
}
