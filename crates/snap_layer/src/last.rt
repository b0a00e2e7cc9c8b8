ghost use Rattle.std.specs.Prelude.{◌≡◌, ◌≢◌, ◌≤◌, ◌^◌, IfOk, OnOk, vec_len};
ghost use Rattle.mig_stream.specs.declared.field_fault.FieldFault.TheVariants.{ReadFault};
ghost use Rattle.device_state.specs.DeviceText.{AreDevices};
ghost use Rattle.device_state.specs.Reader.{told_of};
ghost use Rattle.device_state.specs.declared.fault.DeviceReadFault.TheVariants.{Field};
ghost use Rattle.snap_layer.specs.Reading.{AnswersAs, devices_fault, ends_in, last_in};

use crate::{LayerFault, LayerRefusal};
use device_state::{DeviceReadFault, Devices, get_devices};
use medium::MemBytes;
use mig_stream::{FieldFault, FieldReader};
use std::alloc::Global;

/// The device text that begins at a place, of so many vCPUs, with which the layer ends.
pub(crate) fn read_last(
    alloc: Global,
    layer: Vec<u8>,
    at: u64,
    vcpus: u32,
) -> Result<Devices, LayerFault>
    requires { at ≤ 2 ^ 32 }
    ensures answer { AnswersAs told_of (last_in vcpus layer.items at) result }
    ensures count { IfOk result (λ d. vec_len d.vcpus ≡ vcpus) }
    ensures limits { IfOk result (λ d. AreDevices (told_of d)) }
{
    let len = layer.len() as u64;
    let mut bytes = MemBytes::new(layer);
    let mut reader = FieldReader::new(&mut bytes, at);
    let devices = match get_devices(alloc, &mut reader) {
        Ok(devices) => devices,
        Err(fault) => return Err(fault_of(fault)),
    };
    let count = devices.vcpus.len() as u32;
    match check_end(vcpus, len, count, reader.at()) {
        Ok(()) => Ok(devices),
        Err(refusal) => Err(LayerFault::Refused(refusal)),
    }
}

// Whether a device text of this many vCPUs that ends at this place is the last piece of a layer of this length.
fn check_end(vcpus: u32, len: u64, count: u32, end: u64) -> Result<(), LayerRefusal>
    ensures answer { result ≡ ends_in vcpus len count end }
    ensures count { OnOk result (count ≡ vcpus) }
{
    if count != vcpus {
        return Err(LayerRefusal::Vcpus(count));
    }
    if end < len {
        return Err(LayerRefusal::Trailing { at: end });
    }
    Ok(())
}

// The fault of a device text in memory, where reading never fails.
fn fault_of(fault: DeviceReadFault) -> LayerFault
    requires { fault ≢ Field ReadFault }
    ensures { result ≡ devices_fault fault }
{
    match fault {
        DeviceReadFault::Field(FieldFault::Truncated { at }) => {
            LayerFault::Refused(LayerRefusal::Truncated { at })
        }
        DeviceReadFault::Field(FieldFault::ReadFault) => unreachable!(),
        DeviceReadFault::Section { at, found } => {
            LayerFault::Refused(LayerRefusal::Section { at, found })
        }
        DeviceReadFault::Footer { at, found } => {
            LayerFault::Refused(LayerRefusal::Footer { at, found })
        }
        DeviceReadFault::Device { at, fault } => {
            LayerFault::Refused(LayerRefusal::Device { at, fault })
        }
        DeviceReadFault::NoMemory => LayerFault::NoMemory,
    }
}
