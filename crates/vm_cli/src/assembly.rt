ghost use Rattle.std.specs.Prelude.{◌≡◌, ◌≤◌, ◌+◌, ℕ, List, length};
ghost use Rattle.guest_asm.specs.declared.assembler.TheConstants.{MAX_TEXT};
ghost use Rattle.image_file.specs.Image.{ReadsOn};
ghost use Rattle.medium.specs.Members.{file_state, sink_state, source_state};
ghost use Rattle.medium.specs.States.{Leaves};
ghost use Rattle.vm_cli.specs.Answer.{fault_in};
ghost use Rattle.vm_cli.specs.Work.{IsBeforeOutput, IsNotEmpty, IsUsage, IsWorkDone};
ghost use Rattle.vm_cli.specs.Jobs.Assembly.{WritesAssembly, assembly_steps};
ghost use Rattle.vm_cli.specs.Jobs.Common.{Takes};
ghost use Rattle.vm_cli.specs.Parts.{assembled_line};
ghost use Rattle.vm_cli.specs.Steps.{Faults, HasCause};
ghost use Rattle.vm_cli.specs.Write.{IsBeforeConsole, KeepsFull};

use crate::Fault;
use crate::parts::Part::{Number, Text};
use crate::parts::put_parts;
use crate::write::write_whole;
use guest_asm::{MAX_TEXT, assemble};
use image_file::read_raw;
use medium::{Medium, Sink, Source};
use std::alloc::Global;

/// Assembles the text that the image holds into the output, and says on the console how many bytes it gave.
pub(crate) fn assemble_image<S: Source, M: Medium, K: Sink>(
    alloc: Global,
    image: &mut S,
    output: &mut M,
    console: &mut K,
) -> Result<(), Fault>
    ensures cause { (old : Faults) (new : Faults)
        → HasCause (record old { image = S.faults image.old; output = M.faults output.old; console = K.faults console.old }) (record new { image = S.faults image.new; output = M.faults output.new; console = K.faults console.new })
        (assembly_steps (source_state S.Source image.old) (file_state M.Readable output.old)) (fault_in result) }
    ensures done { IsWorkDone (fault_in result) → (bytes : List ℕ)
        × WritesAssembly bytes (source_state S.Source image.old) (source_state S.Source image.new) (file_state M.Readable output.old) (file_state M.Readable output.new)
        × Takes (fault_in result) (assembled_line (length bytes)) (sink_state K.Sink console.old) (sink_state K.Sink console.new) }

    ensures words_stand { IsUsage (fault_in result) → ⊥ }
    ensures read { ReadsOn (MAX_TEXT + 1) (source_state S.Source image.old) (source_state S.Source image.new) }
    ensures untouched { IsBeforeOutput (fault_in result) → output.new ≡ output.old }
    ensures not_empty { IsNotEmpty (fault_in result) → Leaves (file_state M.Readable output.old) (file_state M.Readable output.new) }
    ensures kept { KeepsFull (file_state M.Readable output.old) (file_state M.Readable output.new) }
    ensures silent { IsBeforeConsole (fault_in result) → console.new ≡ console.old }
    ensures count { K.faults console.old ≤ K.faults console.new }
{
    let text = read_raw(alloc, image, MAX_TEXT as u32)?;
    let bytes = assemble(alloc, &text)?;
    write_whole(output, &bytes)?;
    let line = [
        Text("assembled "),
        Number(bytes.len() as u64),
        Text(" bytes\n"),
    ];
    put_parts(console, &line).map_err(|_| Fault::ConsoleFault)
}
