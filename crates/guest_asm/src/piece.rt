ghost use Rattle.std.specs.Prelude.{◌≡◌, ◌<◌, ◌≤◌, ◌+◌, ◌++◌, ◌^◌, pos, ◌≤ℤ◌, IsTrue, IfSome, IfNone, OnOk, false, vec_len, unsigned_abs};
ghost use Rattle.guest_asm.specs.Bytes.{bytes_given, instruction, is_in_range, is_jump, piece_of, range_of, size_of, upper_immediate};
ghost use Rattle.guest_asm.specs.Facts.{AreBelow32, HasSmallOrder, IsInRange};
ghost use Rattle.guest_asm.specs.Steps.{GivesBytes, PutsPiece};

use crate::{MAX_ASSEMBLED, Mnemonic, Registers};
use rv64i_decode::{Instr, encode};
use std::alloc::AllocError;

impl Mnemonic {
    // The least and the greatest number of a statement; 0 where it has none.
    fn range(self) -> (i128, i128)
        ensures least { result.0 ≡ (range_of self).least }
        ensures most { result.1 ≡ (range_of self).most }
    {
        match self {
            Mnemonic::Imm(_)
            | Mnemonic::ImmW
            | Mnemonic::Load(_)
            | Mnemonic::Jalr
            | Mnemonic::Store(_) => (-2048, 2047),
            Mnemonic::Shift(_) => (0, 63),
            Mnemonic::ShiftW(_) => (0, 31),
            Mnemonic::Branch(_) => (-4096, 4094),
            Mnemonic::Jal => (-1048576, 1048574),
            Mnemonic::Lui | Mnemonic::Auipc => (0, 1048575),
            Mnemonic::Data(directive) => directive.range(),
            Mnemonic::Zero => (0, MAX_ASSEMBLED as i128),
            _ => (0, 0),
        }
    }

    fn is_jump(self) -> bool
        ensures { result ≡ is_jump self }
    {
        matches!(self, Mnemonic::Branch(_) | Mnemonic::Jal)
    }

    /// Whether a statement takes this number: it is within its range, and even for a target.
    #[tactic(auto, unfolding(crate::specs::Bytes::is_in_range))]
    pub(crate) fn takes(self, number: i128) -> bool
        ensures value { result ≡ is_in_range self number }
        ensures range { IsTrue result → IsInRange self number }
    {
        let (least, most) = self.range();
        least <= number && number <= most && (!self.is_jump() || number.unsigned_abs() % 2 == 0)
    }

    // Whether a statement gives bytes, and is no instruction.
    fn gives_bytes(self) -> bool
        ensures gives { IsTrue result → GivesBytes self }
        ensures code { (result ≡ false) → GivesBytes self → ⊥ }
    {
        matches!(self, Mnemonic::Data(_) | Mnemonic::Zero)
    }

    /// How many bytes a statement with this number places.
    pub(crate) fn size(self, number: i128) -> usize
        requires { IsInRange self number }
        ensures size { result ≡ size_of self number }
        ensures small { result ≤ MAX_ASSEMBLED }
    {
        match self {
            Mnemonic::Data(directive) => directive.bytes(),
            Mnemonic::Zero => number as usize,
            _ => 4,
        }
    }

    // The instruction of a statement with these registers and this number; none where it gives bytes.
    #[tactic(auto, unfolding(crate::specs::Bytes::piece_of))]
    fn instruction(self, r: Registers, imm: i64) -> Option<Instr>
        requires { IsInRange self imm }
        ensures piece { IfSome result (λ i. piece_of self r imm ≡ instruction i) }
        ensures none { IfNone result (GivesBytes self) }
    {
        let (rd, rs1, rs2) = (r.first, r.second, r.third);
        Some(match self {
            Mnemonic::Op(op) => Instr::Op { op, rd, rs1, rs2 },
            Mnemonic::OpW(op) => Instr::OpW { op, rd, rs1, rs2 },
            Mnemonic::Imm(op) => Instr::Imm { op, rd, rs1, imm },
            Mnemonic::ImmW => Instr::ImmW { rd, rs1, imm },
            Mnemonic::Shift(op) => Instr::Shift {
                op,
                rd,
                rs1,
                amount: amount(imm),
            },
            Mnemonic::ShiftW(op) => Instr::ShiftW {
                op,
                rd,
                rs1,
                amount: amount(imm),
            },
            Mnemonic::Load(op) => Instr::Load {
                op,
                rd,
                rs1,
                off: imm,
            },
            Mnemonic::Jalr => Instr::Jalr { rd, rs1, off: imm },
            Mnemonic::Store(op) => Instr::Store {
                op,
                rs1,
                rs2: rd,
                off: imm,
            },
            Mnemonic::Branch(op) => Instr::Branch {
                op,
                rs1: rd,
                rs2: rs1,
                off: imm,
            },
            Mnemonic::Jal => Instr::Jal { rd, off: imm },
            Mnemonic::Lui => Instr::Lui {
                rd,
                imm: upper_immediate(imm),
            },
            Mnemonic::Auipc => Instr::Auipc {
                rd,
                imm: upper_immediate(imm),
            },
            Mnemonic::Amo(op, wide, order) => Instr::Amo {
                op,
                wide,
                rd,
                rs1: rs2,
                rs2: rs1,
                order,
            },
            Mnemonic::Fence => Instr::Fence {
                rd: 0,
                rs1: 0,
                bits: 0b1111_1111,
            },
            Mnemonic::Ecall => Instr::Ecall,
            Mnemonic::Ebreak => Instr::Ebreak,
            Mnemonic::Data(_) | Mnemonic::Zero => return None,
        })
    }
}

// The number of places of a shift.
fn amount(number: i64) -> u8
    requires least { pos 0 ≤ℤ number }
    requires most { number ≤ℤ pos 63 }
    ensures { result ≡ unsigned_abs number }
{
    number as u8
}

// The immediate whose upper 20 bits are those of a number below 2^20.
fn upper_immediate(number: i64) -> i64
    requires least { pos 0 ≤ℤ number }
    requires most { number ≤ℤ pos 1048575 }
    ensures { result ≡ upper_immediate number }
{
    if number < 524288 {
        number * 4096
    } else {
        number * 4096 - 4294967296
    }
}

// What a statement with these registers and this number places, put at the end of the bytes.
#[tactic(auto, using(crate::proofs::Validity::small_number))]
pub(crate) fn put_piece(
    bytes: &mut Vec<u8>,
    mnemonic: Mnemonic,
    r: Registers,
    number: i128,
) -> Result<(), AllocError>
    requires registers { AreBelow32 r }
    requires order { HasSmallOrder mnemonic }
    requires number { IsInRange mnemonic number }
    requires room { vec_len bytes.old + size_of mnemonic number ≤ MAX_ASSEMBLED }
    ensures piece { OnOk result (PutsPiece (piece_of mnemonic r number) bytes.old.items bytes.new.items) }
    ensures len { OnOk result (vec_len bytes.new ≡ vec_len bytes.old + size_of mnemonic number) }
{
    if mnemonic.gives_bytes() {
        put_given(bytes, mnemonic, number)
    } else {
        put_instruction(bytes, mnemonic, r, number as i64)
    }
}

fn put_instruction(
    bytes: &mut Vec<u8>,
    mnemonic: Mnemonic,
    r: Registers,
    number: i64,
) -> Result<(), AllocError>
    requires registers { AreBelow32 r }
    requires order { HasSmallOrder mnemonic }
    requires number { IsInRange mnemonic number }
    requires code { GivesBytes mnemonic → ⊥ }
    ensures piece { OnOk result (PutsPiece (piece_of mnemonic r number) bytes.old.items bytes.new.items) }
    ensures len { OnOk result (vec_len bytes.new ≡ vec_len bytes.old + size_of mnemonic number) }
{
    match mnemonic.instruction(r, number) {
        Some(instr) => bytes.extend_from_slice(&encode(&instr).to_le_bytes()),
        None => Ok(()),
    }
}

fn put_given(bytes: &mut Vec<u8>, mnemonic: Mnemonic, number: i128) -> Result<(), AllocError>
    requires given { GivesBytes mnemonic }
    requires number { IsInRange mnemonic number }
    requires room { vec_len bytes.old + size_of mnemonic number ≤ MAX_ASSEMBLED }
    ensures bytes { OnOk result (bytes.new.items ≡ bytes.old.items ++ bytes_given mnemonic number) }
    ensures len { OnOk result (vec_len bytes.new ≡ vec_len bytes.old + size_of mnemonic number) }
{
    match mnemonic {
        Mnemonic::Data(directive) => directive.put(bytes, number),
        _ => bytes.resize(bytes.len() + number as usize, 0),
    }
}
