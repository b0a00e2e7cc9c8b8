ghost use Rattle.std.specs.Prelude.{◌≡◌, ◌≤◌};
ghost use Rattle.flat_machine.specs.Machine.{MachineData};
ghost use Rattle.medium.specs.Members.{file_state, sink_state};
ghost use Rattle.medium.specs.States.{Leaves};
ghost use Rattle.vm_cli.specs.Answer.{fault_in};
ghost use Rattle.vm_cli.specs.Jobs.Common.{Takes};
ghost use Rattle.vm_cli.specs.Jobs.Load.{IsLoadedOf, load_and_print_steps};
ghost use Rattle.vm_cli.specs.Steps.{Faults, HasCause};
ghost use Rattle.vm_cli.specs.Work.{IsUsage, IsWorkDone};
ghost use Rattle.vm_cli.specs.Write.{IsBeforeConsole};
ghost use Rattle.vm_report.specs.Report.{ok_line};

use crate::Fault;
use loader::load;
use medium::{Medium, Sink};
use std::alloc::Global;
use vm_report::put_ok;

/// Loads the machine of the input, and prints its shape on the console.
#[tactic(auto, using(crate::proofs::Loads::unloaded, crate::proofs::Loads::loaded_passes))]
pub(crate) fn check_input<M: Medium, K: Sink>(
    alloc: Global,
    input: &mut M,
    console: &mut K,
) -> Result<(), Fault>
    ensures cause { (old : Faults) (new : Faults)
        → HasCause (record old { input = M.faults input.old; console = K.faults console.old }) (record new { input = M.faults input.new; console = K.faults console.new })
        (load_and_print_steps (file_state M.Readable input.old)) (fault_in result) }
    ensures done { IsWorkDone (fault_in result) → (m : MachineData)
        × IsLoadedOf (file_state M.Readable input.old) m
        × Takes (fault_in result) (ok_line m.shape) (sink_state K.Sink console.old) (sink_state K.Sink console.new) }

    ensures words_stand { IsUsage (fault_in result) → ⊥ }
    ensures leaves { Leaves (file_state M.Readable input.old) (file_state M.Readable input.new) }
    ensures silent { IsBeforeConsole (fault_in result) → console.new ≡ console.old }
    ensures count { K.faults console.old ≤ K.faults console.new }
{
    let machine = load(alloc, input)?;
    put_ok(&machine.shape(), console).map_err(|_| Fault::ConsoleFault)
}
