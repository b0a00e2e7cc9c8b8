ghost use Rattle.std.specs.Prelude.{◌≡◌};
ghost use Rattle.order_log.specs.declared.fault.OrderFault.TheVariants.{NoMemory as out_of_memory, ReadFault as failed_read, Refused as refused};
ghost use Rattle.order_log.specs.Reading.{cut_fault};

use medium::Failed;
use mig_stream::FieldFault;
use ram_block::NoMemory;
use std::alloc::{AllocError, AllocFailed};

/// Why an order is refused: the first piece of its file that is wrong, with its place in bytes from the file's start or
/// with what stands there, or the event that its machine can't make.
#[derive(Clone, Copy, Debug, PartialEq, Eq)]
pub enum OrderRefusal {
    /// The file ends in the piece that begins at this place.
    Truncated { at: u64 },
    Magic(u32),
    Version(u32),
    /// The file is one for this other number of vCPUs.
    Vcpus(u32),
    /// More members than an order has.
    Count(u64),
    /// A member in the byte at this place names no vCPU.
    Member { at: u64, v: u8 },
    /// The high four bits of the last byte, behind an odd number of members, as a number from 1 to 15.
    Pad(u8),
    /// The file goes on from this place, where the members end.
    Trailing { at: u64 },
    /// The member at this place in the order, from 0, names a vCPU that is halted at its turn. No reader answers it: it is
    /// for those who replay what was read.
    Halted { place: u64 },
}

/// Why no order was read.
#[derive(Clone, Copy, Debug, PartialEq, Eq)]
pub enum OrderFault {
    /// The file is the text of no order.
    Refused(OrderRefusal),
    ReadFault,
    NoMemory,
}

impl From<FieldFault> for OrderFault {
    ghost from_gives = { λ fault e. e ≡ cut_fault fault };

    fn from(fault: FieldFault) -> Self {
        match fault {
            FieldFault::Truncated { at } => OrderFault::Refused(OrderRefusal::Truncated { at }),
            FieldFault::ReadFault => OrderFault::ReadFault,
        }
    }
}

impl From<OrderRefusal> for OrderFault {
    ghost from_gives = { λ refusal e. e ≡ refused refusal };

    fn from(refusal: OrderRefusal) -> Self {
        OrderFault::Refused(refusal)
    }
}

impl From<Failed> for OrderFault {
    ghost from_gives = { λ _ e. e ≡ failed_read };

    fn from(_: Failed) -> Self {
        OrderFault::ReadFault
    }
}

impl From<NoMemory> for OrderFault {
    ghost from_gives = { λ _ e. e ≡ out_of_memory };

    fn from(_: NoMemory) -> Self {
        OrderFault::NoMemory
    }
}

impl From<AllocError> for OrderFault {
    ghost from_gives = { λ _ e. e ≡ out_of_memory };

    fn from(_: AllocError) -> Self {
        OrderFault::NoMemory
    }
}

impl<T: Drop> From<AllocFailed<T>> for OrderFault {
    ghost from_gives = { λ _ e. e ≡ out_of_memory };

    fn from(_: AllocFailed<T>) -> Self {
        OrderFault::NoMemory
    }
}
