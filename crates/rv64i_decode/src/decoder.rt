ghost use Rattle.std.specs.Prelude.{◌≡◌, ◌↔◌, IfSome};
ghost use Rattle.rv64i_decode.specs.Decode.{instr_in, instr_of, jalr_of, branch_of, load_of, store_of, op_imm_of, op_of, op_imm_32_of, op_32_of, fence_of, system_of, amo_of};
ghost use Rattle.rv64i_decode.specs.Row.{Row, IsDecoded};
ghost use Rattle.rv64i_decode.specs.Valid.{IsValid};
ghost use Rattle.rv64i_decode.specs.Word.{IsInRange};

use crate::fields::Fields;
use crate::opcode::{
    AMO, AUIPC, BRANCH, JAL, JALR, LOAD, LUI, MISC_MEM, OP, OP_32, OP_IMM, OP_IMM_32, STORE, SYSTEM,
};
use crate::{AmoOp, BranchOp, ImmOp, Instr, LoadOp, RegOp, RegWOp, ShiftOp, StoreOp};

/// The instruction that a word is.
#[tactic(auto, unfolding(crate::specs::Decode::instr_of))]
#[inline(always)]
pub fn decode(word: u32) -> Option<Instr>
    ensures table { (instr : Instr) → (result ≡ Some instr) ↔ Row word instr }
    ensures at_most_one { (a b : Instr) → Row word a → Row word b → a ≡ b }
    ensures value { result ≡ instr_of word }
    ensures valid { IfSome result IsValid }
{
    decode_fields(Fields::of_word(word))
}

#[tactic(auto, unfolding(crate::specs::Decode::instr_in))]
#[inline(always)]
fn decode_fields(f: Fields) -> Option<Instr>
    requires { IsInRange f }
    ensures row { IsDecoded f result }
    ensures value { result ≡ instr_in f }
{
    match f.opcode {
        LUI => Some(Instr::Lui {
            rd: f.rd,
            imm: f.imm_u(),
        }),
        AUIPC => Some(Instr::Auipc {
            rd: f.rd,
            imm: f.imm_u(),
        }),
        JAL => Some(Instr::Jal {
            rd: f.rd,
            off: f.imm_j(),
        }),
        JALR => jump_to_register(f),
        BRANCH => branch(f),
        LOAD => load(f),
        STORE => store(f),
        OP_IMM => with_immediate(f),
        OP => with_registers(f),
        OP_IMM_32 => word_with_immediate(f),
        OP_32 => word_with_registers(f),
        MISC_MEM => fence(f),
        SYSTEM => environment(f),
        AMO => amo(f),
        _ => None,
    }
}

#[inline(always)]
fn jump_to_register(f: Fields) -> Option<Instr>
    requires opcode { f.opcode ≡ JALR }
    requires in_range { IsInRange f }
    ensures row { IsDecoded f result }
    ensures value { result ≡ jalr_of f }
{
    if f.funct3 != 0 {
        return None;
    }
    Some(Instr::Jalr {
        rd: f.rd,
        rs1: f.rs1,
        off: f.imm_i(),
    })
}

#[inline(always)]
fn branch(f: Fields) -> Option<Instr>
    requires opcode { f.opcode ≡ BRANCH }
    requires in_range { IsInRange f }
    ensures row { IsDecoded f result }
    ensures value { result ≡ branch_of f }
{
    let op = BranchOp::of_funct3(f.funct3)?;
    Some(Instr::Branch {
        op,
        rs1: f.rs1,
        rs2: f.rs2,
        off: f.imm_b(),
    })
}

#[inline(always)]
fn load(f: Fields) -> Option<Instr>
    requires opcode { f.opcode ≡ LOAD }
    requires in_range { IsInRange f }
    ensures row { IsDecoded f result }
    ensures value { result ≡ load_of f }
{
    let op = LoadOp::of_funct3(f.funct3)?;
    Some(Instr::Load {
        op,
        rd: f.rd,
        rs1: f.rs1,
        off: f.imm_i(),
    })
}

#[inline(always)]
fn store(f: Fields) -> Option<Instr>
    requires opcode { f.opcode ≡ STORE }
    requires in_range { IsInRange f }
    ensures row { IsDecoded f result }
    ensures value { result ≡ store_of f }
{
    let op = StoreOp::of_funct3(f.funct3)?;
    Some(Instr::Store {
        op,
        rs1: f.rs1,
        rs2: f.rs2,
        off: f.imm_s(),
    })
}

#[inline(always)]
fn with_immediate(f: Fields) -> Option<Instr>
    requires opcode { f.opcode ≡ OP_IMM }
    requires in_range { IsInRange f }
    ensures row { IsDecoded f result }
    ensures value { result ≡ op_imm_of f }
{
    if let Some(op) = ImmOp::of_funct3(f.funct3) {
        return Some(Instr::Imm {
            op,
            rd: f.rd,
            rs1: f.rs1,
            imm: f.imm_i(),
        });
    }
    let op = ShiftOp::of_funct6(f.funct3, f.funct7 >> 1)?;
    let amount = f.rs2 + ((f.funct7 & 1) << 5);
    Some(Instr::Shift {
        op,
        rd: f.rd,
        rs1: f.rs1,
        amount,
    })
}

#[inline(always)]
fn with_registers(f: Fields) -> Option<Instr>
    requires opcode { f.opcode ≡ OP }
    requires in_range { IsInRange f }
    ensures row { IsDecoded f result }
    ensures value { result ≡ op_of f }
{
    let op = RegOp::of_functs(f.funct3, f.funct7)?;
    Some(Instr::Op {
        op,
        rd: f.rd,
        rs1: f.rs1,
        rs2: f.rs2,
    })
}

#[inline(always)]
fn word_with_immediate(f: Fields) -> Option<Instr>
    requires opcode { f.opcode ≡ OP_IMM_32 }
    requires in_range { IsInRange f }
    ensures row { IsDecoded f result }
    ensures value { result ≡ op_imm_32_of f }
{
    if f.funct3 == 0 {
        return Some(Instr::ImmW {
            rd: f.rd,
            rs1: f.rs1,
            imm: f.imm_i(),
        });
    }
    let op = ShiftOp::of_funct7(f.funct3, f.funct7)?;
    Some(Instr::ShiftW {
        op,
        rd: f.rd,
        rs1: f.rs1,
        amount: f.rs2,
    })
}

#[inline(always)]
fn word_with_registers(f: Fields) -> Option<Instr>
    requires opcode { f.opcode ≡ OP_32 }
    requires in_range { IsInRange f }
    ensures row { IsDecoded f result }
    ensures value { result ≡ op_32_of f }
{
    let op = RegWOp::of_functs(f.funct3, f.funct7)?;
    Some(Instr::OpW {
        op,
        rd: f.rd,
        rs1: f.rs1,
        rs2: f.rs2,
    })
}

fn fence(f: Fields) -> Option<Instr>
    requires opcode { f.opcode ≡ MISC_MEM }
    requires in_range { IsInRange f }
    ensures row { IsDecoded f result }
    ensures value { result ≡ fence_of f }
{
    if f.funct3 != 0 {
        return None;
    }
    let bits = u16::from(f.rs2) + (u16::from(f.funct7) << 5);
    Some(Instr::Fence {
        rd: f.rd,
        rs1: f.rs1,
        bits,
    })
}

fn environment(f: Fields) -> Option<Instr>
    requires opcode { f.opcode ≡ SYSTEM }
    requires in_range { IsInRange f }
    ensures row { IsDecoded f result }
    ensures value { result ≡ system_of f }
{
    if f.funct3 != 0 || f.funct7 != 0 || f.rd != 0 || f.rs1 != 0 {
        return None;
    }
    match f.rs2 {
        0 => Some(Instr::Ecall),
        1 => Some(Instr::Ebreak),
        _ => None,
    }
}

fn amo(f: Fields) -> Option<Instr>
    requires opcode { f.opcode ≡ AMO }
    requires in_range { IsInRange f }
    ensures row { IsDecoded f result }
    ensures value { result ≡ amo_of f }
{
    let wide = match f.funct3 {
        0b010 => false,
        0b011 => true,
        _ => return None,
    };
    let op = AmoOp::of_funct5(f.funct7 >> 2)?;
    let order = f.funct7 & 0b11;
    Some(Instr::Amo {
        op,
        wide,
        rd: f.rd,
        rs1: f.rs1,
        rs2: f.rs2,
        order,
    })
}
