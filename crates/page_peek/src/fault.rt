ghost use Rattle.std.specs.Prelude.{◌≡◌};
ghost use Rattle.page_peek.specs.declared.fault.PeekFault.TheVariants.{NoMemory as out_of_memory};

use std::alloc::AllocError;

/// The first head piece of a file that isn't one of the shape, with its place in bytes from the file's start.
#[derive(Clone, Copy, Debug, PartialEq, Eq)]
pub enum PeekRefusal {
    /// The file ends in the head piece that begins at this place.
    Truncated { at: u64 },
    /// The first byte before the bitmap that is another one.
    Differs { at: u64, found: u8 },
}

/// Why a file wasn't opened.
#[derive(Clone, Copy, Debug, PartialEq, Eq)]
pub enum PeekFault {
    /// The file has other heads than the shape asks for.
    Refused(PeekRefusal),
    ReadFault,
    NoMemory,
}

/// Why a page wasn't read.
#[derive(Clone, Copy, Debug, PartialEq, Eq)]
pub enum PageFault {
    /// The file ends in the page that begins at this place, in bytes from its start.
    Truncated { at: u64 },
    ReadFault,
}

impl From<AllocError> for PeekFault {
    ghost from_gives = { λ _ e. e ≡ out_of_memory };

    fn from(_: AllocError) -> Self {
        PeekFault::NoMemory
    }
}
