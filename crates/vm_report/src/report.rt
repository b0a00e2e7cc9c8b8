ghost use Rattle.std.specs.Prelude.{◌≡◌, ◌++◌, option_map, OnOk, OnErr};
ghost use Rattle.medium.specs.Bytes.{AddsFront, BecomesTold};
ghost use Rattle.medium.specs.Count.{HasCause};
ghost use Rattle.vm_report.specs.Report.{report};

use crate::SaveLine;
use crate::lines::{first_lines, last_lines};
use crate::serial::put_serial;
use crate::vcpus::put_vcpus;
use flat_machine::Machine;
use medium::{Failed, Sink};

/// Writes the report of a machine, behind the line of its save where there was one. It takes no memory.
#[tactic(auto, unfolding(crate::specs::Report::report))]
pub fn put_report<K: Sink>(
    save: Option<SaveLine>,
    machine: &Machine,
    sink: &mut K,
) -> Result<(), Failed>
    ensures all { OnOk result (K.taken sink.new ≡ option_map (λ before. before ++ report save machine.now) (K.taken sink.old)) }
    ensures some { OnErr result (BecomesTold (AddsFront (report save machine.now)) (K.taken sink.old) (K.taken sink.new)) }
    ensures cause { HasCause (K.faults sink.old) (K.faults sink.new) result }
{
    sink.write(first_lines(save, machine.clock()).bytes())?;
    put_vcpus(machine, sink)?;
    put_serial(machine.serial(), sink)?;
    sink.write(last_lines(machine).bytes())
}
