ghost use Rattle.std.specs.Prelude.{◌≡◌, ℕ, List, Ok};
ghost use Rattle.flat_machine.specs.Machine.{IsMachine, MachineData, Rest};
ghost use Rattle.device_state.specs.DeviceText.{AreDevices, DevicesData, HasVersion, SameDevices, SerialVersion, device_text};
ghost use Rattle.device_state.specs.Reader.{AreBytes, StandsAs};
ghost use Rattle.device_state.specs.Reading.{DevicesRead, devices_in};

/// The law that a device text, of either version of the serial section, tells the vCPUs, the serial device, the compare
/// value and the clock of a machine at rest.
#[tactic(auto, using(crate::proofs::Texts::same_devices))]
pub fn a_device_text_tells_its_devices()
    ensures { (v w : SerialVersion) (m n : MachineData) → IsMachine m → Rest m → HasVersion v m → IsMachine n → Rest n → HasVersion w n → device_text v m ≡ device_text w n → SameDevices m n }
{}

/// The law that what is read as a device text is one, of devices within the limits, where the file's numbers are bytes.
pub fn what_is_read_is_a_device_text()
    ensures { (file : List ℕ) (at : ℕ) (read : DevicesRead) → AreBytes file at read.end → devices_in file at ≡ Ok read → AreDevices read.devices × StandsAs file at read.end read.version read.devices }
{}

/// The law that each device text, of devices within the limits, is read as what it tells.
pub fn a_device_text_is_read_back()
    ensures { (file : List ℕ) (at end : ℕ) (version : SerialVersion) (d : DevicesData) → AreDevices d → StandsAs file at end version d → devices_in file at ≡ Ok (record { devices = d; version = version; end = end }) }
{}
