ghost use Rattle.std.specs.Prelude.{◌≡◌};
ghost use Rattle.device_state.specs.declared.fault.DeviceReadFault.TheVariants.{NoMemory as out_of_memory};

use mig_stream::FieldFault;
use ram_block::NoMemory;
use std::alloc::{AllocError, AllocFailed};

/// A number that no device text has at its place.
#[derive(Clone, Copy, Debug, PartialEq, Eq)]
pub enum DeviceFault {
    /// More steps than a vCPU at rest has.
    Steps(u64),
    /// Neither 0 nor the code of a cause.
    State(u8),
    /// More bytes than the serial device keeps.
    SerialLength(u32),
    /// A longer input than the serial device takes.
    InputLength(u32),
    /// A later clock than that of a machine at rest.
    Clock(u64),
}

/// Why no devices were read.
#[derive(Clone, Copy, Debug, PartialEq, Eq)]
pub enum DeviceReadFault {
    /// A piece could not be read.
    Field(FieldFault),
    /// A byte of a section's header, or the last byte, is not the one that stands there in each device text.
    Section { at: u64, found: u8 },
    /// The same of a footer.
    Footer { at: u64, found: u8 },
    /// A number is past its limit, at the place of its first byte.
    Device { at: u64, fault: DeviceFault },
    /// Memory ran out.
    NoMemory,
}

impl From<AllocError> for DeviceReadFault {
    ghost from_gives = { λ _ e. e ≡ out_of_memory };

    fn from(_: AllocError) -> Self {
        DeviceReadFault::NoMemory
    }
}

impl<T: Drop> From<AllocFailed<T>> for DeviceReadFault {
    ghost from_gives = { λ _ e. e ≡ out_of_memory };

    fn from(_: AllocFailed<T>) -> Self {
        DeviceReadFault::NoMemory
    }
}

impl From<NoMemory> for DeviceReadFault {
    ghost from_gives = { λ _ e. e ≡ out_of_memory };

    fn from(_: NoMemory) -> Self {
        DeviceReadFault::NoMemory
    }
}
