ghost use Rattle.std.specs.Prelude.{◌≡◌};
ghost use Rattle.image_file.specs.declared.image_fault.ImageFault.TheVariants.{NoMemory as out_of_memory, Refused as refused};

use crate::ImageRefusal;
use std::alloc::AllocError;

/// Why there is no image.
#[derive(Clone, Copy, Debug, PartialEq, Eq)]
pub enum ImageFault {
    /// The bytes are no image of this machine.
    Refused(ImageRefusal),
    /// A call on the source failed.
    ReadFault,
    /// Memory ran out.
    NoMemory,
}

impl From<AllocError> for ImageFault {
    ghost from_gives = { λ _ e. e ≡ out_of_memory };

    fn from(_: AllocError) -> Self {
        ImageFault::NoMemory
    }
}

impl From<ImageRefusal> for ImageFault {
    ghost from_gives = { λ refusal e. e ≡ refused refusal };

    fn from(refusal: ImageRefusal) -> Self {
        ImageFault::Refused(refusal)
    }
}
