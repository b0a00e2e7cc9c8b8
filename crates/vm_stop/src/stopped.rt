ghost use Rattle.std.specs.Prelude.{◌≡◌, IfErr, IfOk};
ghost use Rattle.flat_machine.specs.Machine.{IsMachine, Rest};
ghost use Rattle.device_state.specs.DeviceText.{Two, device_text};

use device_state::put_devices;
use flat_machine::Machine;
use ram_block::NoMemory;
use std::alloc::Global;
use std::marker::Model;

/// A machine at rest with its device text: what a save keeps of the instant. Contracts see the machine.
#[derive(Drop)]
pub struct Stopped {
    machine: Machine,
    devices: Vec<u8>,
}

impl Model for Stopped {
    ghost use Rattle.std.specs.Prelude.{◌≡◌};
    ghost use Rattle.flat_machine.specs.Machine.{IsMachine, MachineData, Rest};
    ghost use Rattle.device_state.specs.DeviceText.{Two, device_text};

    ghost Value = { MachineData };

    ghost view = { λ s. s.machine };

    ghost invariant = { λ s. record {
      rest : Rest s.machine;
      limits : IsMachine s.machine;
      devices : s.devices.items ≡ device_text Two s.machine;
    } };
}

impl Stopped {
    /// The machine at the instant.
    pub fn machine(&self) -> &Machine
        ensures machine { result.now ≡ self.now }
        ensures rest { Rest self.now }
        ensures limits { IsMachine self.now }
    {
        &self.machine
    }

    /// The device text of the instant, as a file has it, with the end of the stream.
    pub fn devices(&self) -> &[u8]
        ensures { result.now ≡ device_text Two self.now }
    {
        &self.devices
    }

    /// The machine again, as it was stopped.
    pub fn into_machine(self) -> Machine
        ensures machine { result ≡ self }
        ensures rest { Rest self }
        ensures limits { IsMachine self }
    {
        self.machine
    }
}

/// Keeps a machine at rest as the instant, with its device text.
pub fn stop(alloc: Global, machine: Machine) -> Result<Stopped, (Machine, NoMemory)>
    requires { Rest machine }
    ensures instant { IfOk result (λ s. s ≡ machine) }
    ensures limits { IsMachine machine }
    ensures no_memory { IfErr result (λ e. e.0 ≡ machine) }
{
    let _limits = machine.clock();
    match put_devices(alloc, &machine) {
        Ok(devices) => Ok(Stopped { machine, devices }),
        Err(no_memory) => Err((machine, no_memory)),
    }
}
