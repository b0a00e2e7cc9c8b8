ghost use Rattle.std.specs.Prelude.{◌≤◌, ◌+◌, List, ◌∷◌, length, Some, IfErr, IfOk};
ghost use Rattle.flat_machine.specs.Machine.{Rest};
ghost use Rattle.image_file.specs.Image.{ReadsOn};
ghost use Rattle.image_file.specs.declared.raw.TheConstants.{MOST_IMAGE};
ghost use Rattle.medium.specs.Members.{source_state};
ghost use Rattle.ram_block.specs.declared.limits.TheConstants.{MAX_INPUT};
ghost use Rattle.vm_cli.specs.Jobs.Boot.{BootsImage, IsOfImage, boot_step};
ghost use Rattle.vm_cli.specs.Steps.{Faults, HasCause, Passes, Step};

use crate::Fault;
use flat_machine::Machine;
use image_file::read_image;
use medium::Source;
use ram_block::Shape;
use std::alloc::Global;

/// The machine that boots with the image. What was read of it is let go here.
pub(crate) fn boot_image<S: Source>(
    alloc: Global,
    shape: &Shape,
    serial: &[u8],
    image: &mut S,
) -> Result<Machine, Fault>
    requires { length serial.now ≤ MAX_INPUT }
    ensures booted { IfOk result (BootsImage shape.now serial.now (source_state S.Source image.old) (source_state S.Source image.new)) }
    ensures passes { IfOk result (λ _. Passes (boot_step shape.now (source_state S.Source image.old))) }
    ensures cause { IfErr result (λ fault. (old : Faults) (new : Faults) (steps : List Step)
        → HasCause (record old { image = S.faults image.old }) (record new { image = S.faults image.new })
        (boot_step shape.now (source_state S.Source image.old) ∷ steps) (Some fault)) }
    ensures fault { IfErr result IsOfImage }
    ensures read { ReadsOn (MOST_IMAGE + 1) (source_state S.Source image.old) (source_state S.Source image.new) }
    ensures rest { IfOk result Rest }
{
    let bytes = read_image(alloc, image, shape)?;
    Ok(Machine::boot(alloc, *shape, &bytes, serial)?)
}
