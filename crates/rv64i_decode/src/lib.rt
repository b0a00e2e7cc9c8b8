//! RV64I and the word and doubleword AMO instructions, as values: which 32-bit words are instructions,
//! and what their fields are. It stands on nothing.
#![tactic(auto)]

mod decoder;
mod encoder;
mod fields;
mod instr;
mod op;
mod opcode;
mod round_trip;
mod twos_complement;

pub use decoder::decode;
pub use encoder::encode;
pub use instr::Instr;
pub use op::{AmoOp, BranchOp, ImmOp, LoadOp, RegOp, RegWOp, ShiftOp, StoreOp};
pub use round_trip::{decode_encoded, encode_decoded};

#[cfg(test)]
mod tests;
