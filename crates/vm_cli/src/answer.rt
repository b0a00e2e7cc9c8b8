ghost use Rattle.std.specs.Prelude.{◌≡◌};
ghost use Rattle.vm_cli.specs.Answer.{fault_status, status_of, fault_of_image, fault_of_layer, fault_of_load, fault_of_order, fault_of_peek, fault_of_save, fault_of_write, fault_of_text, fault_of_words};
ghost use Rattle.vm_cli.specs.declared.answer.Fault.TheVariants.{NoMemory as out_of_memory};

use crate::write_fault::WriteFault;
use bg_saver::SaveFault;
use flat_machine::Order;
use guest_asm::{AsmFault, AsmKind};
use image_file::{ImageFault, ImageRefusal};
use loader::{LoadFault, Refusal};
use order_log::{OrderFault, OrderRefusal};
use page_peek::{PeekFault, PeekRefusal};
use ram_block::NoMemory;
use snap_layer::{LayerFault, LayerRefusal};
use std::alloc::AllocError;
use vm_words::{UsageKind, WordsFault};

/// Why a job ended before its end.
#[derive(Clone, Copy, Debug, PartialEq, Eq)]
pub enum Fault {
    /// The words are no line: the first that fails, counted from 0, and how.
    Usage { index: u32, kind: UsageKind },
    ImageRefused(ImageRefusal),
    /// The file to be loaded is a layout of no machine.
    FileRefused(Refusal),
    /// A call on a file failed.
    FileFault,
    /// A call on the console failed.
    ConsoleFault,
    /// A call on the image failed.
    ImageFault,
    NoMemory,
    /// The file to be written holds so many bytes already.
    NotEmpty { len: u64 },
    /// The text that was to be assembled has a wrong line: the first, counted from 1, and what is wrong with it.
    AsmRefused { line: u32, kind: AsmKind },
    /// The file to be looked into has other heads than those of the shape, or ends in a page of the range.
    PeekRefused(PeekRefusal),
    /// The layer and its base join to no machine, or the machine of which a layer was asked for came too late.
    LayerRefused(LayerRefusal),
    /// The order file is the text of no order, or a vCPU is halted at its turn.
    OrderRefused(OrderRefusal),
}

impl Fault {
    /// The exit status of the program.
    pub fn status(self) -> u8
        ensures { result ≡ fault_status self }
    {
        match self {
            Fault::Usage { .. } => 1,
            Fault::ImageRefused(_) => 2,
            Fault::FileRefused(_) => 3,
            Fault::FileFault => 4,
            Fault::ConsoleFault => 5,
            Fault::ImageFault => 6,
            Fault::NoMemory => 7,
            Fault::NotEmpty { .. } => 8,
            Fault::AsmRefused { .. } => 9,
            Fault::PeekRefused(_) => 10,
            Fault::LayerRefused(_) => 11,
            Fault::OrderRefused(_) => 12,
        }
    }
}

impl From<WordsFault> for Fault {
    ghost from_gives = { λ e f. f ≡ fault_of_words e };

    fn from(fault: WordsFault) -> Self {
        match fault {
            WordsFault::Usage { index, kind } => Fault::Usage { index, kind },
            WordsFault::NoMemory => Fault::NoMemory,
        }
    }
}

impl From<ImageFault> for Fault {
    ghost from_gives = { λ e f. f ≡ fault_of_image e };

    fn from(fault: ImageFault) -> Self {
        match fault {
            ImageFault::Refused(refusal) => Fault::ImageRefused(refusal),
            ImageFault::ReadFault => Fault::ImageFault,
            ImageFault::NoMemory => Fault::NoMemory,
        }
    }
}

impl From<LoadFault> for Fault {
    ghost from_gives = { λ e f. f ≡ fault_of_load e };

    fn from(fault: LoadFault) -> Self {
        match fault {
            LoadFault::Refused(refusal) => Fault::FileRefused(refusal),
            LoadFault::ReadFault => Fault::FileFault,
            LoadFault::NoMemory => Fault::NoMemory,
        }
    }
}

impl From<PeekFault> for Fault {
    ghost from_gives = { λ e f. f ≡ fault_of_peek e };

    fn from(fault: PeekFault) -> Self {
        match fault {
            PeekFault::Refused(refusal) => Fault::PeekRefused(refusal),
            PeekFault::ReadFault => Fault::FileFault,
            PeekFault::NoMemory => Fault::NoMemory,
        }
    }
}

impl From<LayerFault> for Fault {
    ghost from_gives = { λ e f. f ≡ fault_of_layer e };

    fn from(fault: LayerFault) -> Self {
        match fault {
            LayerFault::Refused(refusal) => Fault::LayerRefused(refusal),
            LayerFault::NoMemory => Fault::NoMemory,
        }
    }
}

impl From<OrderFault> for Fault {
    ghost from_gives = { λ e f. f ≡ fault_of_order e };

    fn from(fault: OrderFault) -> Self {
        match fault {
            OrderFault::Refused(refusal) => Fault::OrderRefused(refusal),
            OrderFault::ReadFault => Fault::FileFault,
            OrderFault::NoMemory => Fault::NoMemory,
        }
    }
}

impl From<AllocError> for Fault {
    ghost from_gives = { λ _ f. f ≡ out_of_memory };

    fn from(_: AllocError) -> Self {
        Fault::NoMemory
    }
}

impl From<NoMemory> for Fault {
    ghost from_gives = { λ _ f. f ≡ out_of_memory };

    fn from(_: NoMemory) -> Self {
        Fault::NoMemory
    }
}

impl From<AsmFault> for Fault {
    ghost from_gives = { λ e f. f ≡ fault_of_text e };

    fn from(fault: AsmFault) -> Self {
        match fault {
            AsmFault::Line { line, kind } => Fault::AsmRefused { line, kind },
            AsmFault::NoMemory => Fault::NoMemory,
        }
    }
}

impl From<WriteFault> for Fault {
    ghost from_gives = { λ e f. f ≡ fault_of_write e };

    fn from(fault: WriteFault) -> Self {
        match fault {
            WriteFault::FileFault => Fault::FileFault,
            WriteFault::NotEmpty(len) => Fault::NotEmpty { len },
            WriteFault::NoMemory => Fault::NoMemory,
        }
    }
}

impl From<SaveFault> for Fault {
    ghost from_gives = { λ e f. f ≡ fault_of_save e };

    fn from(fault: SaveFault) -> Self {
        match fault {
            SaveFault::FileFault => Fault::FileFault,
            SaveFault::NotEmpty(len) => Fault::NotEmpty { len },
            SaveFault::NoMemory => Fault::NoMemory,
        }
    }
}

/// How a job ended: the exit status, its fault if any, and the orders of the two phases.
#[derive(Debug, Drop)]
pub struct Answer {
    pub status: u8,
    pub fault: Option<Fault>,
    pub first: Order,
    pub second: Order,
}
