ghost use Rattle.std.specs.Prelude.{◌≡◌, ℕ};
ghost use Rattle.rv64i_decode.specs.Row.{HasFields, Row};
ghost use Rattle.rv64i_decode.specs.Valid.{IsValid};
ghost use Rattle.rv64i_decode.specs.Word.{IsInRange};

use crate::Instr;
use crate::fields::Fields;
use crate::opcode::{
    AMO, AUIPC, BRANCH, JAL, JALR, LOAD, LUI, MISC_MEM, OP, OP_32, OP_IMM, OP_IMM_32, STORE, SYSTEM,
};

/// The word of an instruction.
pub fn encode(instr: &Instr) -> u32
    requires valid { IsValid instr.now }
    ensures row { Row result instr.now }
    ensures only { (word : ℕ) → Row word instr.now → word ≡ result }
{
    fields_of(*instr).word()
}

fn fields_of(instr: Instr) -> Fields
    requires { IsValid instr }
    ensures row { HasFields result instr }
    ensures in_range { IsInRange result }
{
    match instr {
        Instr::Lui { rd, imm } => Fields::format_u(LUI, rd, imm),
        Instr::Auipc { rd, imm } => Fields::format_u(AUIPC, rd, imm),
        Instr::Jal { rd, off } => Fields::format_j(JAL, rd, off),
        Instr::Jalr { rd, rs1, off } => Fields::format_i(JALR, 0b000, rd, rs1, off),
        Instr::Branch { op, rs1, rs2, off } => {
            Fields::format_b(BRANCH, op.funct3(), rs1, rs2, off)
        }
        Instr::Load { op, rd, rs1, off } => Fields::format_i(LOAD, op.funct3(), rd, rs1, off),
        Instr::Store { op, rs1, rs2, off } => {
            Fields::format_s(STORE, op.funct3(), rs1, rs2, off)
        }
        Instr::Imm { op, rd, rs1, imm } => Fields::format_i(OP_IMM, op.funct3(), rd, rs1, imm),
        Instr::Shift {
            op,
            rd,
            rs1,
            amount,
        } => Fields::format_shift(OP_IMM, op.funct3(), op.funct6(), rd, rs1, amount),
        Instr::ImmW { rd, rs1, imm } => Fields::format_i(OP_IMM_32, 0b000, rd, rs1, imm),
        Instr::ShiftW {
            op,
            rd,
            rs1,
            amount,
        } => Fields::format_r(OP_IMM_32, op.funct3(), op.funct7(), rd, rs1, amount),
        Instr::Op { op, rd, rs1, rs2 } => {
            Fields::format_r(OP, op.funct3(), op.funct7(), rd, rs1, rs2)
        }
        Instr::OpW { op, rd, rs1, rs2 } => {
            Fields::format_r(OP_32, op.funct3(), op.funct7(), rd, rs1, rs2)
        }
        Instr::Fence { rd, rs1, bits } => Fields::format_fence(MISC_MEM, 0b000, rd, rs1, bits),
        Instr::Ecall => Fields::format_r(SYSTEM, 0, 0, 0, 0, 0),
        Instr::Ebreak => Fields::format_r(SYSTEM, 0, 0, 0, 0, 1),
        Instr::Amo {
            op,
            wide,
            rd,
            rs1,
            rs2,
            order,
        } => {
            let funct3 = if wide { 0b011 } else { 0b010 };
            Fields::format_r(AMO, funct3, order + (op.funct5() << 2), rd, rs1, rs2)
        }
    }
}
