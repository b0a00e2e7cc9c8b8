ghost use Rattle.std.specs.Prelude.{◌≡◌, ◌≤◌, ◌+◌, ◌^◌, ℕ, List, Some, Err, IfOk, IfSome, All, length, vec_len};
ghost use Rattle.medium.specs.Count.{HasRisen};
ghost use Rattle.medium.specs.Members.{file_state};
ghost use Rattle.medium.specs.States.{Leaves};
ghost use Rattle.device_state.specs.DeviceText.{AreDevices};
ghost use Rattle.device_state.specs.Reader.{told_of};
ghost use Rattle.loader.specs.Frame.{devices_behind, frame_in, last_in};
ghost use Rattle.loader.specs.Piece.{AnswersAs, devices_fault};
ghost use Rattle.loader.specs.Stands.{EndsWith, HasFrame, HasLast, IsFrame, says_frame};
ghost use Rattle.loader.specs.declared.refusal.LoadFault.TheVariants.{ReadFault};

use crate::block::file_len;
use crate::front::{read_stream, read_total};
use crate::piece::cut;
use crate::ram::{Ram, read_ram};
use crate::tail::read_tail;
use crate::{Frame, LoadFault, Refusal};
use device_state::{DeviceReadFault, Devices, get_devices};
use file_plan::{Plan, TAIL_LEN};
use medium::{Medium, Readable};
use mig_stream::FieldReader;
use ram_block::Shape;
use std::alloc::Global;

/// What the file says, of which each page with a set bit is there whole; no byte of a page is read.
pub fn frame<M: Medium>(alloc: Global, medium: &mut M) -> Result<Frame, LoadFault>
    ensures answer { IfSome (M.Readable.told medium.old) (λ file. AnswersAs says_frame (frame_in file) result) }
    ensures stands { IfSome (M.Readable.told medium.old) (λ file. IfOk result (λ frame. HasFrame file (says_frame frame))) }
    ensures limits { IfOk result (λ frame. IsFrame (says_frame frame)) }
    ensures read_fault { result ≡ Err ReadFault → HasRisen (M.Readable.faults medium.old) (M.Readable.faults medium.new) }
    ensures leaves { Leaves (file_state M.Readable medium.old) (file_state M.Readable medium.new) }
{
    read_frame(alloc, medium)
}

/// The same, of any file that can be read.
#[tactic(auto, unfolding(crate::specs::Frame::frame_in))]
pub(crate) fn read_frame<M: Readable>(alloc: Global, medium: &mut M) -> Result<Frame, LoadFault>
    ensures answer { (file : List ℕ) → M.told medium.old ≡ Some file → AnswersAs says_frame (frame_in file) result }
    ensures stands { (file : List ℕ) → M.told medium.old ≡ Some file → IfOk result (λ frame. HasFrame file (says_frame frame)) }
    ensures limits { IfOk result (λ frame. IsFrame (says_frame frame)) }
    ensures read_fault { result ≡ Err ReadFault → HasRisen (M.faults medium.old) (M.faults medium.new) }
    ensures leaves { Leaves (file_state M.Readable medium.old) (file_state M.Readable medium.new) }
{
    read_stream(medium)?;
    let total = read_total(medium)?;
    let ram = read_ram(alloc, medium, total)?;
    let devices = read_devices_behind(alloc, medium, Plan::of(&ram.shape).tail_at())?;
    Ok(framed(ram, devices))
}

// The frame of this RAM with these vCPUs and devices.
fn framed(ram: Ram, devices: Devices) -> Frame
    requires vcpus { AreDevices (told_of devices) }
    ensures shape { result.shape ≡ record { vcpus = vec_len devices.vcpus; blocks = ram.shape.blocks; pages = ram.shape.pages } }
    ensures bits { result.bits ≡ ram.bits }
    ensures devices { result.devices ≡ devices }
{
    let Ram { shape, bits } = ram;
    let vcpus = devices.vcpus.len() as u64;
    match Shape::new(vcpus, u64::from(shape.blocks()), u64::from(shape.pages())) {
        Ok(shape) => Frame {
            shape,
            bits,
            devices,
        },
        Err(_) => unreachable!(),
    }
}

// The tail that begins at a place, and the device text behind it, with which the file ends.
#[tactic(auto, using(crate::proofs::Last::has_last), unfolding(crate::specs::Frame::devices_behind))]
fn read_devices_behind<M: Readable>(
    alloc: Global,
    medium: &mut M,
    at: u64,
) -> Result<Devices, LoadFault>
    requires { at ≤ 2 ^ 31 }
    ensures answer { (file : List ℕ) → M.told medium.old ≡ Some file → AnswersAs told_of (devices_behind file at) result }
    ensures stands { (file : List ℕ) → M.told medium.old ≡ Some file → IfOk result (λ d. HasLast file at (told_of d)) }
    ensures limits { IfOk result (λ d. AreDevices (told_of d)) }
    ensures read_fault { result ≡ Err ReadFault → HasRisen (M.faults medium.old) (M.faults medium.new) }
    ensures leaves { Leaves (file_state M.Readable medium.old) (file_state M.Readable medium.new) }
{
    read_tail(medium, at)?;
    read_last(alloc, medium, at + TAIL_LEN as u64)
}

// The device text that begins at a place, with which the file ends.
#[tactic(auto, using(crate::proofs::Last::reads_last, crate::proofs::Last::refuses_last, crate::proofs::Last::trails), unfolding(crate::specs::Frame::last_in))]
fn read_last<M: Readable>(alloc: Global, medium: &mut M, at: u64) -> Result<Devices, LoadFault>
    requires { at ≤ 2 ^ 32 }
    ensures answer { (file : List ℕ) → M.told medium.old ≡ Some file → AnswersAs told_of (last_in file at) result }
    ensures stands { (file : List ℕ) → M.told medium.old ≡ Some file → IfOk result (λ d. EndsWith file at (told_of d)) }
    ensures limits { IfOk result (λ d. AreDevices (told_of d)) }
    ensures read_fault { result ≡ Err ReadFault → HasRisen (M.faults medium.old) (M.faults medium.new) }
    ensures leaves { Leaves (file_state M.Readable medium.old) (file_state M.Readable medium.new) }
{
    let mut reader = FieldReader::new(medium, at);
    let devices = match get_devices(alloc, &mut reader) {
        Ok(devices) => devices,
        Err(fault) => return Err(refused(fault)),
    };
    let end = reader.at();
    if file_len(medium)? > end {
        return Err(LoadFault::Refused(Refusal::Trailing { at: end }));
    }
    Ok(devices)
}

// The fault of a device text.
fn refused(fault: DeviceReadFault) -> LoadFault
    ensures { result ≡ devices_fault fault }
{
    match fault {
        DeviceReadFault::Field(fault) => cut(fault),
        DeviceReadFault::Section { at, found } => {
            LoadFault::Refused(Refusal::Section { at, found })
        }
        DeviceReadFault::Footer { at, found } => LoadFault::Refused(Refusal::Footer { at, found }),
        DeviceReadFault::Device { at, fault } => LoadFault::Refused(Refusal::Device { at, fault }),
        DeviceReadFault::NoMemory => LoadFault::NoMemory,
    }
}
