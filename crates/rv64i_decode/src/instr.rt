ghost use Rattle.std.specs.Prelude.{◌≡◌, ◌↔◌, ◌<◌, IsTrue};
ghost use Rattle.rv64i_decode.specs.Immediate.{Is12Bit, IsBranchOffset, IsUpperImmediate, IsJumpOffset};

use crate::{AmoOp, BranchOp, ImmOp, LoadOp, RegOp, RegWOp, ShiftOp, StoreOp};

/// An instruction, one variant a form. Registers are numbers below 32; an offset is in bytes.
#[derive(Clone, Copy, Debug, PartialEq, Eq)]
pub enum Instr {
    Lui {
        rd: u8,
        imm: i64,
    },
    Auipc {
        rd: u8,
        imm: i64,
    },
    Jal {
        rd: u8,
        off: i64,
    },
    Jalr {
        rd: u8,
        rs1: u8,
        off: i64,
    },
    Branch {
        op: BranchOp,
        rs1: u8,
        rs2: u8,
        off: i64,
    },
    Load {
        op: LoadOp,
        rd: u8,
        rs1: u8,
        off: i64,
    },
    Store {
        op: StoreOp,
        rs1: u8,
        rs2: u8,
        off: i64,
    },
    Imm {
        op: ImmOp,
        rd: u8,
        rs1: u8,
        imm: i64,
    },
    Shift {
        op: ShiftOp,
        rd: u8,
        rs1: u8,
        amount: u8,
    },
    ImmW {
        rd: u8,
        rs1: u8,
        imm: i64,
    },
    ShiftW {
        op: ShiftOp,
        rd: u8,
        rs1: u8,
        amount: u8,
    },
    Op {
        op: RegOp,
        rd: u8,
        rs1: u8,
        rs2: u8,
    },
    OpW {
        op: RegWOp,
        rd: u8,
        rs1: u8,
        rs2: u8,
    },
    Fence {
        rd: u8,
        rs1: u8,
        bits: u16,
    },
    Ecall,
    Ebreak,
    /// `wide` is true for a doubleword; `order` has aq as its 2 and rl as its 1.
    Amo {
        op: AmoOp,
        wide: bool,
        rd: u8,
        rs1: u8,
        rs2: u8,
        order: u8,
    },
}

impl Instr {
    ghost use Rattle.rv64i_decode.specs.Valid.{IsValid};

    /// Whether a word can hold the instruction: each field is within its range.
    pub fn is_valid(&self) -> bool
        ensures { IsTrue result ↔ IsValid self.now }
    {
        match *self {
            Instr::Lui { rd, imm } => rd < 32 && is_upper_immediate(imm),
            Instr::Auipc { rd, imm } => rd < 32 && is_upper_immediate(imm),
            Instr::Jal { rd, off } => rd < 32 && is_jump_offset(off),
            Instr::Jalr { rd, rs1, off } => rd < 32 && rs1 < 32 && is_12_bit(off),
            Instr::Branch { rs1, rs2, off, .. } => rs1 < 32 && rs2 < 32 && is_branch_offset(off),
            Instr::Load { rd, rs1, off, .. } => rd < 32 && rs1 < 32 && is_12_bit(off),
            Instr::Store { rs1, rs2, off, .. } => rs1 < 32 && rs2 < 32 && is_12_bit(off),
            Instr::Imm { rd, rs1, imm, .. } => rd < 32 && rs1 < 32 && is_12_bit(imm),
            Instr::Shift {
                rd,
                rs1,
                amount,
                ..
            } => rd < 32 && rs1 < 32 && amount < 64,
            Instr::ImmW { rd, rs1, imm } => rd < 32 && rs1 < 32 && is_12_bit(imm),
            Instr::ShiftW {
                rd,
                rs1,
                amount,
                ..
            } => rd < 32 && rs1 < 32 && amount < 32,
            Instr::Op { rd, rs1, rs2, .. } => rd < 32 && rs1 < 32 && rs2 < 32,
            Instr::OpW { rd, rs1, rs2, .. } => rd < 32 && rs1 < 32 && rs2 < 32,
            Instr::Fence { rd, rs1, bits } => rd < 32 && rs1 < 32 && bits < 4096,
            Instr::Ecall | Instr::Ebreak => true,
            Instr::Amo {
                rd,
                rs1,
                rs2,
                order,
                ..
            } => rd < 32 && rs1 < 32 && rs2 < 32 && order < 4,
        }
    }
}

fn is_12_bit(imm: i64) -> bool
    ensures { IsTrue result ↔ Is12Bit imm }
{
    -2048 <= imm && imm <= 2047
}

fn is_branch_offset(off: i64) -> bool
    ensures { IsTrue result ↔ IsBranchOffset off }
{
    -4096 <= off && off <= 4094 && off.unsigned_abs() % 2 == 0
}

fn is_jump_offset(off: i64) -> bool
    ensures { IsTrue result ↔ IsJumpOffset off }
{
    -1048576 <= off && off <= 1048574 && off.unsigned_abs() % 2 == 0
}

fn is_upper_immediate(imm: i64) -> bool
    ensures { IsTrue result ↔ IsUpperImmediate imm }
{
    -2147483648 <= imm && imm <= 2147479552 && imm.unsigned_abs() % 4096 == 0
}
