ghost use Rattle.guest_asm.specs.Facts.{AreBelow32, HasSmallOrder, IsInRange};

use crate::{Mnemonic, Registers};

/// A statement with nothing wrong in it.
#[derive(Clone, Copy)]
pub(crate) struct Placed {
    pub(crate) mnemonic: Mnemonic,
    pub(crate) registers: Registers,
    pub(crate) number: i128,
    ghost order: { HasSmallOrder mnemonic },
    ghost small: { AreBelow32 registers },
    ghost in_range: { IsInRange mnemonic number },
}
