ghost use Rattle.std.specs.Prelude.{◌≡◌};

use crate::ElfKind;

/// Why an image is refused.
#[derive(Clone, Copy, Debug, PartialEq, Eq)]
pub enum ImageRefusal {
    /// It has no byte.
    Empty,
    /// It has so many bytes, or at least so many.
    TooLong(u64),
    /// It is an ELF file, in which the field or the structure at this place is wrong.
    Elf { kind: ElfKind, at: u64 },
}

impl ImageRefusal {
    /// An ELF file, of which this is wrong at this place.
    pub(crate) fn elf(kind: ElfKind, at: u64) -> ImageRefusal
        ensures { result ≡ ImageRefusal.Elf kind at }
    {
        ImageRefusal::Elf { kind, at }
    }
}
