ghost use Rattle.std.specs.Prelude.{◌≡◌};
ghost use Rattle.loader.specs.declared.refusal.LoadFault.TheVariants.{NoMemory as out_of_memory};

use device_state::DeviceFault;
use mapped_ram_header::HeaderFault;
use std::alloc::AllocError;

/// The first piece of a file that is wrong, with its place in bytes from the file's start, and with what stands there.
#[derive(Clone, Copy, Debug, PartialEq, Eq)]
pub enum Refusal {
    /// The file ends in the piece that begins at this place.
    Truncated { at: u64 },
    Magic(u32),
    StreamVersion(u32),
    /// The byte that differs from the machine's name.
    Config { at: u64, found: u8 },
    /// The byte that differs from the header of a section, or from the end of the stream.
    Section { at: u64, found: u8 },
    RamVersion(u32),
    Flags { at: u64, v: u64 },
    /// The number with its flag, as it stands in the file.
    Total(u64),
    Name { block: u32, at: u64, found: u8 },
    Length { block: u32, v: u64 },
    Header { block: u32, fault: HeaderFault },
    Footer { at: u64, found: u8 },
    Device { at: u64, fault: DeviceFault },
    /// The file goes on from this place, where its last piece ends.
    Trailing { at: u64 },
}

/// Why a file wasn't loaded.
#[derive(Clone, Copy, Debug, PartialEq, Eq)]
pub enum LoadFault {
    /// The file is a layout of no machine.
    Refused(Refusal),
    ReadFault,
    NoMemory,
}

impl From<AllocError> for LoadFault {
    ghost from_gives = { λ _ e. e ≡ out_of_memory };

    fn from(_: AllocError) -> Self {
        LoadFault::NoMemory
    }
}
