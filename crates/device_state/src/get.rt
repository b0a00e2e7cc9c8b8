ghost use Rattle.std.specs.Prelude.{◌≡◌, ℕ, ◌+◌, ◌*◌, ◌^◌, ◌<◌, ◌≤◌, List, [], ◌∷◌, ◌++◌, length, codes, Some, IfOk, IfErr, IfSome, All, vec_len};
ghost use Rattle.medium.specs.Members.{file_state};
ghost use Rattle.medium.specs.States.{Leaves};
ghost use Rattle.medium.specs.Count.{HasRisen};
ghost use Rattle.mig_stream.specs.declared.field_fault.FieldFault.TheVariants.{ReadFault};
ghost use Rattle.device_state.specs.DeviceText.{AreDevices};
ghost use Rattle.device_state.specs.Reading.{devices_in};
ghost use Rattle.device_state.specs.Reader.{AreBytes, IsFault, IsFrom, ReadsDevices, Stands, told_of};
ghost use Rattle.device_state.specs.declared.fault.DeviceReadFault.TheVariants.{Field};

use crate::get_serial::{get_form, get_serial};
use crate::get_timer::get_timer;
use crate::get_vcpu::get_vcpus;
use crate::pieces::expect_section;
use crate::{DeviceReadFault, Devices};
use medium::Readable;
use mig_stream::{EOF, FieldReader};
use std::alloc::Global;

/// The devices of which the file has a text at the reader's place, which then is the place behind it.
pub fn get_devices<M: Readable>(
    alloc: Global,
    reader: &mut FieldReader<'_, M>,
) -> Result<Devices, DeviceReadFault>
    requires { reader.old.at ≤ 2 ^ 32 }
    ensures answer { IfSome (M.told reader.old.medium.now) (λ file. ReadsDevices (devices_in file reader.old.at) reader.new.at result) }
    ensures text { IfOk result (λ d. IfSome (M.told reader.old.medium.now) (λ file. Stands file reader.old.at reader.new.at (told_of d))) }
    ensures limits { IfOk result (λ d. AreDevices (told_of d)) }
    ensures read_fault { result ≡ Err (Field ReadFault) → HasRisen (M.faults reader.old.medium.now) (M.faults reader.new.medium.now) }
    ensures place { IfErr result (IsFrom reader.old.at) }

    ensures stays { IfErr result (λ _. reader.new.at ≡ reader.old.at) }
    ensures behind { IfOk result (λ _. reader.old.at < reader.new.at) }
    ensures near { reader.new.at ≤ 2 ^ 33 }
    ensures same_medium { reader.new.medium.ghost_name ≡ reader.old.medium.ghost_name }
    ensures leaves { Leaves (file_state M.Readable reader.old.medium.now) (file_state M.Readable reader.new.medium.now) }
{
    let start = reader.at();
    match get_all(alloc, reader) {
        Ok(devices) => Ok(devices),
        Err(fault) => {
            reader.seek(start);
            Err(fault)
        }
    }
}

// The same, where an error may leave the reader at any place.
fn get_all<M: Readable>(
    alloc: Global,
    reader: &mut FieldReader<'_, M>,
) -> Result<Devices, DeviceReadFault>
    requires { reader.old.at ≤ 2 ^ 32 }
    ensures answer { (file : List ℕ) → M.told reader.old.medium.now ≡ Some file → ReadsDevices (devices_in file reader.old.at) reader.new.at result }
    ensures bytes { IfOk result (λ _. (file : List ℕ) → M.told reader.old.medium.now ≡ Some file → AreBytes file reader.old.at reader.new.at) }
    ensures fault { IfErr result (IsFault (file_state M.Readable reader.old.medium.now) (file_state M.Readable reader.new.medium.now) reader.old.at) }
    ensures limits { IfOk result (λ d. AreDevices (told_of d)) }
    ensures behind { IfOk result (λ _. reader.old.at < reader.new.at) }
    ensures near { IfOk result (λ _. reader.new.at ≤ 2 ^ 33) }
    ensures same_medium { reader.new.medium.ghost_name ≡ reader.old.medium.ghost_name }
    ensures leaves { Leaves (file_state M.Readable reader.old.medium.now) (file_state M.Readable reader.new.medium.now) }
{
    let vcpus = get_vcpus(alloc, reader)?;
    let count = vcpus.len() as u32;
    let form = get_form(reader)?;
    let serial = get_serial(alloc, reader, form, count)?;
    let (clock, timer) = get_timer(reader, count)?;
    expect_section(reader, &[EOF])?;
    Ok(Devices {
        vcpus,
        serial,
        timer,
        clock,
    })
}
