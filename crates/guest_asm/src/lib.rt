//! The assembler of guest texts, and the listing of bytes as such a text.
//! A text has bytes or a first wrong line, and the listing of any bytes assembles to them.
//! Below it stand `rv64i_decode`, whose table says what each instruction's word is, and `ram_block`.
#![tactic(auto)]

mod assembler;
mod directive;
mod fault;
mod labels;
mod line;
mod lister;
mod mnemonic;
mod number;
mod operand;
mod piece;
mod placed;
mod spelling;
mod statement;
mod text;

pub use assembler::{MAX_ASSEMBLED, MAX_TEXT, assemble};
pub(crate) use directive::Directive;
pub use fault::{AsmFault, AsmKind};
pub use lister::listing;
pub(crate) use mnemonic::{Form, Mnemonic};
pub(crate) use operand::{Operands, Registers, Target};

#[cfg(test)]
mod tests;
