ghost use Rattle.std.specs.Prelude.{◌≡◌, ◌≤◌, ◌+◌, List, ◌∷◌, Some, IfErr, IfOk};
ghost use Rattle.flat_machine.specs.Machine.{MachineData, Rest};
ghost use Rattle.image_file.specs.Image.{ReadsOn};
ghost use Rattle.image_file.specs.declared.raw.TheConstants.{MOST_IMAGE};
ghost use Rattle.medium.specs.Members.{file_state, sink_state, source_state};
ghost use Rattle.medium.specs.States.{Leaves};
ghost use Rattle.vm_cli.specs.Answer.{fault_in};
ghost use Rattle.vm_cli.specs.Jobs.Common.{Takes};
ghost use Rattle.vm_cli.specs.Jobs.Join.{IsFullSave, IsOfParts, IsUnsaved, JoinsTo, StopsJoin, join_step, join_steps, read_layer_step};
ghost use Rattle.vm_cli.specs.Jobs.Load.{load_step};
ghost use Rattle.vm_cli.specs.Jobs.Save.{KeepsImages, WritesInstant};
ghost use Rattle.vm_cli.specs.Steps.{Faults, HasCause, Passes, Step};
ghost use Rattle.vm_cli.specs.Work.{IsNotEmpty, IsUsage, IsWorkDone};
ghost use Rattle.vm_cli.specs.Write.{IsBeforeConsole, KeepsFull};
ghost use Rattle.vm_report.specs.Report.{ok_line};

use crate::Fault;
use crate::save::save_instant;
use bg_saver::SaveEnd;
use flat_machine::Machine;
use image_file::{MOST_IMAGE, read_raw};
use loader::load;
use medium::{Medium, Sink, Source};
use ram_block::Shape;
use snap_layer::{a_layer_is_joined_or_refused, join_layer};
use std::alloc::Global;
use vm_report::put_ok;
use vm_words::turns_of;

/// Reads a layer from the image, loads its base from the input, saves the machine to which they join into the output, and
/// prints its shape on the console.
pub(crate) fn join_image<S: Source, M: Medium, K: Sink>(
    alloc: Global,
    image: &mut S,
    input: &mut M,
    output: &mut M,
    console: &mut K,
) -> Result<(), Fault>
    ensures cause { (old : Faults) (new : Faults)
        → HasCause (record old { image = S.faults image.old; input = M.faults input.old; output = M.faults output.old; console = K.faults console.old }) (record new { image = S.faults image.new; input = M.faults input.new; output = M.faults output.new; console = K.faults console.new })
        (join_steps (source_state S.Source image.old) (file_state M.Readable input.old) (file_state M.Readable output.old)) (fault_in result) }
    ensures done { IsWorkDone (fault_in result) → (m : MachineData)
        × (joined : JoinsTo (source_state S.Source image.old) (source_state S.Source image.new) (file_state M.Readable input.old) m)
        × WritesInstant m (file_state M.Readable output.old) (file_state M.Readable output.new)
        × KeepsImages m (file_state M.Readable output.old) (file_state M.Readable output.new)
        × IsFullSave joined (file_state M.Readable output.old) (file_state M.Readable output.new)
        × Takes (fault_in result) (ok_line m.shape) (sink_state K.Sink console.old) (sink_state K.Sink console.new) }
    ensures stopped { IsBeforeConsole (fault_in result)
        → StopsJoin (source_state S.Source image.old) (source_state S.Source image.new) (file_state M.Readable input.old) (file_state M.Readable input.new) (output.new ≡ output.old) (file_state M.Readable output.old) (file_state M.Readable output.new) (fault_in result) }

    ensures words_stand { IsUsage (fault_in result) → ⊥ }
    ensures read { ReadsOn (MOST_IMAGE + 1) (source_state S.Source image.old) (source_state S.Source image.new) }
    ensures leaves { Leaves (file_state M.Readable input.old) (file_state M.Readable input.new) }
    ensures not_empty { IsNotEmpty (fault_in result) → Leaves (file_state M.Readable output.old) (file_state M.Readable output.new) }
    ensures kept { KeepsFull (file_state M.Readable output.old) (file_state M.Readable output.new) }
    ensures silent { IsBeforeConsole (fault_in result) → console.new ≡ console.old }
    ensures count { K.faults console.old ≤ K.faults console.new }
{
    let machine = join_input(alloc, image, input)?;
    let shape = save_joined(alloc, machine, output)?;
    put_ok(&shape, console).map_err(|_| Fault::ConsoleFault)
}

// The machine to which the layer of the image and the machine of the input join.
#[tactic(auto, using(crate::proofs::Joins::unjoined_part))]
fn join_input<S: Source, M: Medium>(
    alloc: Global,
    image: &mut S,
    input: &mut M,
) -> Result<Machine, Fault>
    ensures joined { IfOk result (JoinsTo (source_state S.Source image.old) (source_state S.Source image.new) (file_state M.Readable input.old)) }
    ensures rest { IfOk result Rest }
    ensures passes { IfOk result (λ _. Passes (read_layer_step (source_state S.Source image.old)) × Passes (load_step (file_state M.Readable input.old)) × Passes (join_step (source_state S.Source image.old) (file_state M.Readable input.old))) }
    ensures cause { IfErr result (λ fault. (old : Faults) (new : Faults) (steps : List Step)
        → HasCause (record old { image = S.faults image.old; input = M.faults input.old }) (record new { image = S.faults image.new; input = M.faults input.new })
        (read_layer_step (source_state S.Source image.old) ∷ load_step (file_state M.Readable input.old) ∷ join_step (source_state S.Source image.old) (file_state M.Readable input.old) ∷ steps) (Some fault)) }
    ensures fault { IfErr result (IsOfParts (file_state M.Readable input.old) (file_state M.Readable input.new)) }
    ensures read { ReadsOn (MOST_IMAGE + 1) (source_state S.Source image.old) (source_state S.Source image.new) }
    ensures leaves { Leaves (file_state M.Readable input.old) (file_state M.Readable input.new) }
{
    a_layer_is_joined_or_refused();
    let layer = read_raw(alloc, image, MOST_IMAGE)?;
    let base = load(alloc, input)?;
    Ok(join_layer(alloc, base, layer)?)
}

// Saves the machine in the output, with no phase beside it, and answers its shape.
fn save_joined<M: Medium>(alloc: Global, machine: Machine, output: &mut M) -> Result<Shape, Fault>
    requires rest { Rest machine }
    ensures shape { IfOk result (λ shape. shape ≡ machine.shape) }
    ensures saved { IfOk result (λ _. WritesInstant machine (file_state M.Readable output.old) (file_state M.Readable output.new)) }
    ensures unsaved { IfErr result (IsUnsaved machine (output.new ≡ output.old) (file_state M.Readable output.old) (file_state M.Readable output.new)) }
    ensures crash { KeepsImages machine (file_state M.Readable output.old) (file_state M.Readable output.new) }
    ensures kept { KeepsFull (file_state M.Readable output.old) (file_state M.Readable output.new) }
{
    let shape = machine.shape();
    let no_turns = turns_of(alloc, 0, shape.vcpus(), 0)?;
    let out = save_instant(alloc, machine, 0, &no_turns, output)?;
    match out.saved {
        Some(SaveEnd::Complete) => Ok(shape),
        _ => Err(Fault::FileFault),
    }
}
