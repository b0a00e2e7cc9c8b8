ghost use Rattle.std.specs.Prelude.{◌≡◌, ◌≢◌, ◌*◌, ◌^◌, ◌<◌, ◌≤◌, ℕ, List, Some, Ok, Err, IfOk, IfSome, All, length, vec_len};
ghost use Rattle.medium.specs.Count.{HasRisen};
ghost use Rattle.medium.specs.Members.{file_state};
ghost use Rattle.medium.specs.States.{Leaves};
ghost use Rattle.ram_block.specs.Shape.{total_pages_of};
ghost use Rattle.file_plan.specs.Layout.{Lay};
ghost use Rattle.flat_machine.specs.Machine.{IsMachine, Rest};
ghost use Rattle.loader.specs.Loaded.{loaded, pages_from};
ghost use Rattle.loader.specs.Piece.{Answers};
ghost use Rattle.flat_machine.specs.Page.{joined};
ghost use Rattle.loader.specs.Stands.{IsFrame, says_frame};
ghost use Rattle.loader.specs.Whole.{AreWhole};
ghost use Rattle.loader.specs.declared.refusal.LoadFault.{LoadFault};
ghost use Rattle.loader.specs.declared.refusal.LoadFault.TheVariants.{ReadFault, Refused};
ghost use Rattle.loader.specs.declared.refusal.Refusal.{Refusal};

use crate::framing::read_frame;
use crate::pages::read_pages;
use crate::{Frame, LoadFault};
use device_state::Devices;
use file_plan::Plan;
use flat_machine::Machine;
use medium::{Medium, Readable};
use page_bitmap::Bitmap;
use ram_block::{PageBuf, Shape};
use std::alloc::Global;

/// The machine of which a file is a layout, which is at rest, or the first piece of the file that is wrong.
pub fn load<M: Medium>(alloc: Global, medium: &mut M) -> Result<Machine, LoadFault>
    ensures answer { IfSome (M.Readable.told medium.old) (λ file. Answers (loaded file) result) }
    ensures layout { IfSome (M.Readable.told medium.old) (λ file. IfOk result (Lay file)) }
    ensures rest { IfOk result Rest }
    ensures limits { IfOk result IsMachine }
    ensures read_fault { result ≡ Err ReadFault → HasRisen (M.Readable.faults medium.old) (M.Readable.faults medium.new) }
    ensures leaves { Leaves (file_state M.Readable medium.old) (file_state M.Readable medium.new) }
{
    read_machine(alloc, medium)
}

// The same, of any file that can be read.
#[tactic(auto, unfolding(crate::specs::Loaded::loaded))]
fn read_machine<M: Readable>(alloc: Global, medium: &mut M) -> Result<Machine, LoadFault>
    ensures answer { (file : List ℕ) → M.told medium.old ≡ Some file → Answers (loaded file) result }
    ensures layout { (file : List ℕ) → M.told medium.old ≡ Some file → IfOk result (Lay file) }
    ensures rest { IfOk result Rest }
    ensures limits { IfOk result IsMachine }
    ensures read_fault { result ≡ Err ReadFault → HasRisen (M.faults medium.old) (M.faults medium.new) }
    ensures leaves { Leaves (file_state M.Readable medium.old) (file_state M.Readable medium.new) }
{
    let frame = read_frame(alloc, medium)?;
    match read_ram_pages(alloc, medium, &frame.shape, &frame.bits) {
        Ok(ram) => Ok(put_together(frame, ram)),
        Err(fault) => Err(fault),
    }
}

// The machine of a frame, with these pages.
fn put_together(frame: Frame, ram: Vec<PageBuf>) -> Machine
    requires frame { IsFrame (says_frame frame) }
    requires pages { vec_len ram ≡ total_pages_of frame.shape }
    ensures machine { result ≡ record { shape = frame.shape; ram = joined ram.items; vcpus = frame.devices.vcpus.items; serial = frame.devices.serial; cmp = frame.devices.timer; clock = frame.devices.clock } }
    ensures rest { Rest result }
    ensures limits { IsMachine result }
{
    let Frame { shape, devices, .. } = frame;
    let Devices {
        vcpus,
        serial,
        timer,
        clock,
    } = devices;
    Machine::of(shape, ram, vcpus, serial, timer, clock)
}

// The pages of all blocks by their bits.
#[tactic(auto, using(crate::proofs::Whole::whole_on, crate::proofs::Whole::pages_on))]
fn read_ram_pages<M: Readable>(
    alloc: Global,
    medium: &mut M,
    shape: &Shape,
    bits: &[Bitmap],
) -> Result<Vec<PageBuf>, LoadFault>
    requires blocks { length bits.now ≡ shape.now.blocks }
    requires pages { All (λ b. b.pages ≡ shape.now.pages) bits.now }
    ensures ram { (file : List ℕ) → M.told medium.old ≡ Some file → IfOk result (λ ram. ram.items ≡ pages_from file shape.now.pages 0 bits.now) }
    ensures count { IfOk result (λ ram. vec_len ram ≡ total_pages_of shape.now) }
    ensures whole { (file : List ℕ) (refusal : Refusal) → M.told medium.old ≡ Some file → AreWhole file shape.now.pages 0 bits.now → result ≢ Err (Refused refusal) }
    ensures read_fault { result ≡ Err ReadFault → HasRisen (M.faults medium.old) (M.faults medium.new) }
    ensures leaves { Leaves (file_state M.Readable medium.old) (file_state M.Readable medium.new) }
{
    let plan = Plan::of(shape);
    let mut ram = Vec::with_capacity(alloc, shape.total_pages() as usize)?;
    for block in 0..shape.blocks() {
        let first = plan.places(block).pages;
        let bitmap = &bits[block as usize];
        if let Err(fault) = read_pages(alloc, medium, first, bitmap, shape.pages(), &mut ram) {
            return Err(fault);
        }
    }
    Ok(ram)
}
