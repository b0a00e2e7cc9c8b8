ghost use Rattle.std.specs.Prelude.{◌≡◌, ◌≤◌, ◌+◌, ℕ, List, None, Some};
ghost use Rattle.flat_machine.specs.Machine.{MachineData, boot};
ghost use Rattle.flat_machine.specs.Run.{run};
ghost use Rattle.image_file.specs.Image.{ReadsOn};
ghost use Rattle.image_file.specs.declared.raw.TheConstants.{MOST_IMAGE};
ghost use Rattle.medium.specs.Members.{file_state, sink_state, source_state};
ghost use Rattle.medium.specs.States.{Leaves};
ghost use Rattle.vm_words.specs.Limits.{IsRun};
ghost use Rattle.vm_cli.specs.Answer.{fault_in};
ghost use Rattle.vm_cli.specs.Jobs.Boot.{ReadsImage};
ghost use Rattle.vm_cli.specs.Jobs.Common.{Takes};
ghost use Rattle.vm_cli.specs.Jobs.Replay.{ReadsOrder, replay_steps};
ghost use Rattle.vm_cli.specs.Steps.{Faults, HasCause};
ghost use Rattle.vm_cli.specs.Work.{IsUsage, IsWorkDone};
ghost use Rattle.vm_cli.specs.Write.{IsBeforeConsole};
ghost use Rattle.vm_report.specs.Report.{report};

use crate::Fault;
use crate::boot::boot_image;
use flat_machine::Order;
use medium::{Medium, Sink, Source};
use order_log::{OrderRefusal, get_order, replay};
use ram_block::Shape;
use std::alloc::Global;
use vm_report::put_report;
use vm_words::Input;

/// Boots the machine of an image, makes the events of the order that the input holds, and reports the machine on the
/// console. The order is left in `order`, once its events are made.
pub(crate) fn replay_input<S: Source, M: Medium, K: Sink>(
    alloc: Global,
    shape: &Shape,
    serial: &Input,
    image: &mut S,
    input: &mut M,
    console: &mut K,
    order: &mut Order,
) -> Result<(), Fault>
    requires limits { IsRun shape.now 0 serial.now }
    ensures cause { (old : Faults) (new : Faults)
        → HasCause (record old { image = S.faults image.old; input = M.faults input.old; console = K.faults console.old }) (record new { image = S.faults image.new; input = M.faults input.new; console = K.faults console.new })
        (replay_steps shape.now serial.now (source_state S.Source image.old) (file_state M.Readable input.old)) (fault_in result) }
    ensures done { IsWorkDone (fault_in result) → (bytes : List ℕ) × ReadsImage shape.now bytes (source_state S.Source image.old) (source_state S.Source image.new)
        × ReadsOrder shape.now.vcpus (file_state M.Readable input.old) order.new.members
        × (after : MachineData) × (run (boot shape.now bytes serial.now) order.new.members ≡ Some after)
        × Takes (fault_in result) (report None after) (sink_state K.Sink console.old) (sink_state K.Sink console.new) }
    ensures no_phase { (IsWorkDone (fault_in result) → ⊥) → order.new ≡ order.old }

    ensures words_stand { IsUsage (fault_in result) → ⊥ }
    ensures read { ReadsOn (MOST_IMAGE + 1) (source_state S.Source image.old) (source_state S.Source image.new) }
    ensures leaves { Leaves (file_state M.Readable input.old) (file_state M.Readable input.new) }
    ensures silent { IsBeforeConsole (fault_in result) → console.new ≡ console.old }
    ensures count { K.faults console.old ≤ K.faults console.new }
{
    let machine = boot_image(alloc, shape, serial.bytes(), image)?;
    let read = get_order(alloc, input, shape.vcpus())?;
    match replay(machine, &read) {
        Ok(machine) => {
            *order = read;
            put_report(None, &machine, console).map_err(|_| Fault::ConsoleFault)
        }
        Err((_, place)) => Err(Fault::OrderRefused(OrderRefusal::Halted { place })),
    }
}
