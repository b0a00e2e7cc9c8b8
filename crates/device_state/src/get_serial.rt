ghost use Rattle.std.specs.Prelude.{◌≡◌, ℕ, ◌+◌, ◌*◌, ◌^◌, ◌<◌, ◌≤◌, List, [], ◌∷◌, ◌++◌, length, codes, Some, IfOk, IfErr, All, vec_len};
ghost use Rattle.medium.specs.Members.{file_state};
ghost use Rattle.medium.specs.States.{Leaves};
ghost use Rattle.serial_timer.specs.Serial.{IsSerial};
ghost use Rattle.device_state.specs.Reading.{SerialHead, head_bytes, head_in, head_of, serial_in, version_in, version_of};
ghost use Rattle.device_state.specs.Reader.{AreBytes, IsFault, IsRefused, Reads, version_of_form};

use crate::format::{SERIAL_HEAD_BYTES, SERIAL_HEAD_BYTES_WITHOUT_INPUT, SERIAL_HEADER_BYTES};
use crate::kind::SerialForm;
use crate::pieces::{compare, expect_footer, get_bytes, get_piece};
use crate::{
    DeviceFault, DeviceReadFault, FIRST_DEVICE, SERIAL_VERSION, SERIAL_VERSION_WITHOUT_INPUT,
};
use medium::Readable;
use mig_stream::{FieldReader, be32_at, be64_at};
use ram_block::{MAX_INPUT, MAX_VCPUS};
use serial_timer::{MAX_SERIAL_BYTES, Serial};
use std::alloc::Global;

// The header of a serial section from its name on, but for the byte of its version.
const HEADER: [u8; 13] = [b's', b'e', b'r', b'i', b'a', b'l', 0, 0, 0, 0, 0, 0, 0];

// What a serial section says of the bytes behind.
#[derive(Clone, Copy)]
struct Head {
    lost: u64,
    bytes: usize,
    input: usize,
}

/// The header of the serial section behind its start, which tells its version.
pub(crate) fn get_form<M: Readable>(
    reader: &mut FieldReader<'_, M>,
) -> Result<SerialForm, DeviceReadFault>
    requires { reader.old.at ≤ 2 ^ 36 }
    ensures answer { (file : List ℕ) → M.told reader.old.medium.now ≡ Some file → Reads (version_in file reader.old.at) (λ form. (version_of_form form, reader.new.at)) result }
    ensures bytes { IfOk result (λ _. (file : List ℕ) → M.told reader.old.medium.now ≡ Some file → AreBytes file reader.old.at reader.new.at) }
    ensures fault { IfErr result (IsFault (file_state M.Readable reader.old.medium.now) (file_state M.Readable reader.new.medium.now) reader.old.at) }
    ensures at { IfOk result (λ _. reader.new.at ≡ reader.old.at + SERIAL_HEADER_BYTES) }
    ensures same_medium { reader.new.medium.ghost_name ≡ reader.old.medium.ghost_name }
    ensures leaves { Leaves (file_state M.Readable reader.old.medium.now) (file_state M.Readable reader.new.medium.now) }
{
    let at = reader.at();
    let mut header = [0; SERIAL_HEADER_BYTES];
    get_piece(reader, &mut header)?;
    compare(at, &header, &HEADER)?;
    form_at(at + 13, header[13])
}

// What a version's byte says.
#[tactic(auto, unfolding(crate::specs::Reading::version_of))]
fn form_at(at: u64, byte: u8) -> Result<SerialForm, DeviceReadFault>
    ensures answer { Reads (version_of at byte) version_of_form result }
    ensures refused { IfErr result (IsRefused at) }
{
    if u32::from(byte) == SERIAL_VERSION_WITHOUT_INPUT {
        Ok(SerialForm::WithoutInput)
    } else if u32::from(byte) == SERIAL_VERSION {
        Ok(SerialForm::WithInput)
    } else {
        Err(DeviceReadFault::Section { at, found: byte })
    }
}

/// The serial section behind its header, of a machine with so many vCPUs.
pub(crate) fn get_serial<M: Readable>(
    alloc: Global,
    reader: &mut FieldReader<'_, M>,
    form: SerialForm,
    vcpus: u32,
) -> Result<Serial, DeviceReadFault>
    requires place { reader.old.at ≤ 2 ^ 36 }
    requires vcpus { vcpus ≤ MAX_VCPUS }
    ensures answer { (file : List ℕ) → M.told reader.old.medium.now ≡ Some file → Reads (serial_in file reader.old.at (version_of_form form) vcpus) (λ serial. (serial, reader.new.at)) result }
    ensures bytes { IfOk result (λ _. (file : List ℕ) → M.told reader.old.medium.now ≡ Some file → AreBytes file reader.old.at reader.new.at) }
    ensures fault { IfErr result (IsFault (file_state M.Readable reader.old.medium.now) (file_state M.Readable reader.new.medium.now) reader.old.at) }
    ensures limits { IfOk result IsSerial }
    ensures behind { IfOk result (λ _. reader.old.at ≤ reader.new.at) }
    ensures near { IfOk result (λ _. reader.new.at ≤ reader.old.at + 2 ^ 17) }
    ensures same_medium { reader.new.medium.ghost_name ≡ reader.old.medium.ghost_name }
    ensures leaves { Leaves (file_state M.Readable reader.old.medium.now) (file_state M.Readable reader.new.medium.now) }
{
    let head = get_head(reader, form)?;
    let bytes = get_bytes(alloc, reader, head.bytes)?;
    let input = get_bytes(alloc, reader, head.input)?;
    expect_footer(reader, FIRST_DEVICE + vcpus)?;
    let serial = Serial::of(alloc, &bytes, head.lost, &input)?;
    Ok(serial)
}

// The head of a serial section.
fn get_head<M: Readable>(
    reader: &mut FieldReader<'_, M>,
    form: SerialForm,
) -> Result<Head, DeviceReadFault>
    requires { reader.old.at ≤ 2 ^ 36 }
    ensures answer { (file : List ℕ) → M.told reader.old.medium.now ≡ Some file → Reads (head_in file reader.old.at (version_of_form form)) (λ h. (record { lost = h.lost; bytes = h.bytes; input = h.input }, reader.new.at)) result }
    ensures bytes { IfOk result (λ _. (file : List ℕ) → M.told reader.old.medium.now ≡ Some file → AreBytes file reader.old.at reader.new.at) }
    ensures fault { IfErr result (IsFault (file_state M.Readable reader.old.medium.now) (file_state M.Readable reader.new.medium.now) reader.old.at) }
    ensures kept { IfOk result (λ h. h.bytes ≤ MAX_SERIAL_BYTES) }
    ensures input { IfOk result (λ h. h.input ≤ MAX_INPUT) }
    ensures behind { IfOk result (λ _. reader.old.at ≤ reader.new.at) }
    ensures near { IfOk result (λ _. reader.new.at ≤ reader.old.at + SERIAL_HEAD_BYTES) }
    ensures same_medium { reader.new.medium.ghost_name ≡ reader.old.medium.ghost_name }
    ensures leaves { Leaves (file_state M.Readable reader.old.medium.now) (file_state M.Readable reader.new.medium.now) }
{
    let at = reader.at();
    let mut head = [0; SERIAL_HEAD_BYTES];
    let front = &mut head[..bytes_of_head(form)];
    get_piece(reader, front)?;
    head_at(form, at, front)
}

// How many bytes the head of such a section has.
fn bytes_of_head(form: SerialForm) -> usize
    ensures { result ≡ head_bytes (version_of_form form) }
{
    match form {
        SerialForm::WithoutInput => SERIAL_HEAD_BYTES_WITHOUT_INPUT,
        SerialForm::WithInput => SERIAL_HEAD_BYTES,
    }
}

// The head that these bytes are, which stand at the place.
#[tactic(auto, unfolding(crate::specs::Reading::head_of))]
fn head_at(form: SerialForm, at: u64, head: &[u8]) -> Result<Head, DeviceReadFault>
    requires place { at ≤ 2 ^ 40 }
    requires whole { length head.now ≡ head_bytes (version_of_form form) }
    ensures answer { Reads (head_of (version_of_form form) at head.now) (λ h. record { lost = h.lost; bytes = h.bytes; input = h.input }) result }
    ensures refused { IfErr result (IsRefused at) }
    ensures kept { IfOk result (λ h. h.bytes ≤ MAX_SERIAL_BYTES) }
    ensures input { IfOk result (λ h. h.input ≤ MAX_INPUT) }
{
    let bytes = be32_at(head, 8);
    let input = match form {
        SerialForm::WithoutInput => 0,
        SerialForm::WithInput => be32_at(head, 12),
    };
    if bytes as usize > MAX_SERIAL_BYTES {
        return Err(DeviceReadFault::Device {
            at: at + 8,
            fault: DeviceFault::SerialLength(bytes),
        });
    }
    if input as usize > MAX_INPUT {
        return Err(DeviceReadFault::Device {
            at: at + 12,
            fault: DeviceFault::InputLength(input),
        });
    }
    Ok(Head {
        lost: be64_at(head, 0),
        bytes: bytes as usize,
        input: input as usize,
    })
}
