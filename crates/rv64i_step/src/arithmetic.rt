ghost use Rattle.std.specs.Prelude.{◌≡◌, ◌<◌, ◌^◌};
ghost use Rattle.rv64i_step.specs.Arithmetic.{extended_word, flag, imm_result, is_less_signed, is_taken, low_word, reg_result, reg_w_result, shift_result, shift_w_result};

use rv64i_decode::{BranchOp, ImmOp, RegOp, RegWOp, ShiftOp};

/// The low 32 bits of a register.
#[inline(always)]
pub(crate) fn word_in(a: u64) -> u32
    ensures { result ≡ low_word a }
{
    (a % (1 << 32)) as u32
}

/// A word as a register holds it: sign-extended.
#[inline(always)]
pub(crate) fn sign_extended(word: u32) -> u64
    ensures { result ≡ extended_word word }
{
    i64::from(word.cast_signed()).cast_unsigned()
}

// Whether a is less than b, with sign.
#[inline(always)]
fn is_below(a: u64, b: u64) -> bool
    ensures { result ≡ is_less_signed a b }
{
    a.cast_signed() < b.cast_signed()
}

/// What an operation on a register and an immediate computes, of the sign-extended immediate.
#[tactic(auto, unfolding(crate::specs::Arithmetic::imm_result))]
#[inline(always)]
pub(crate) fn imm_value(op: ImmOp, a: u64, b: u64) -> u64
    ensures { result ≡ imm_result op a b }
{
    match op {
        ImmOp::Addi => a.wrapping_add(b),
        ImmOp::Slti => u64::from(is_below(a, b)),
        ImmOp::Sltiu => u64::from(a < b),
        ImmOp::Xori => a ^ b,
        ImmOp::Ori => a | b,
        ImmOp::Andi => a & b,
    }
}

/// A register shifted by an amount of the instruction.
#[tactic(auto, unfolding(crate::specs::Arithmetic::shift_result))]
#[inline(always)]
pub(crate) fn shift_value(op: ShiftOp, a: u64, amount: u8) -> u64
    requires { amount < 64 }
    ensures { result ≡ shift_result op a amount }
{
    match op {
        ShiftOp::Left => a << amount,
        ShiftOp::Right => a >> amount,
        ShiftOp::RightSigned => (a.cast_signed() >> amount).cast_unsigned(),
    }
}

/// A word shifted by an amount of the instruction.
#[tactic(auto, unfolding(crate::specs::Arithmetic::shift_w_result))]
#[inline(always)]
pub(crate) fn shift_w_value(op: ShiftOp, a: u32, amount: u8) -> u32
    requires { amount < 32 }
    ensures { result ≡ shift_w_result op a amount }
{
    match op {
        ShiftOp::Left => a << amount,
        ShiftOp::Right => a >> amount,
        ShiftOp::RightSigned => (a.cast_signed() >> amount).cast_unsigned(),
    }
}

/// What an operation on two registers computes.
#[tactic(auto, unfolding(crate::specs::Arithmetic::reg_result))]
#[inline(always)]
pub(crate) fn reg_value(op: RegOp, a: u64, b: u64) -> u64
    ensures { result ≡ reg_result op a b }
{
    match op {
        RegOp::Add => a.wrapping_add(b),
        RegOp::Sll => a << (b % 64),
        RegOp::Slt => u64::from(is_below(a, b)),
        RegOp::Sltu => u64::from(a < b),
        RegOp::Xor => a ^ b,
        RegOp::Srl => a >> (b % 64),
        RegOp::Or => a | b,
        RegOp::And => a & b,
        RegOp::Sub => a.wrapping_sub(b),
        RegOp::Sra => (a.cast_signed() >> (b % 64)).cast_unsigned(),
    }
}

/// What an operation on two words computes.
#[tactic(auto, unfolding(crate::specs::Arithmetic::reg_w_result))]
#[inline(always)]
pub(crate) fn reg_w_value(op: RegWOp, a: u32, b: u32) -> u32
    ensures { result ≡ reg_w_result op a b }
{
    match op {
        RegWOp::Addw => a.wrapping_add(b),
        RegWOp::Sllw => a << (b % 32),
        RegWOp::Srlw => a >> (b % 32),
        RegWOp::Subw => a.wrapping_sub(b),
        RegWOp::Sraw => (a.cast_signed() >> (b % 32)).cast_unsigned(),
    }
}

/// Whether a branch is taken.
#[tactic(auto, unfolding(crate::specs::Arithmetic::is_taken))]
#[inline(always)]
pub(crate) fn takes_branch(op: BranchOp, a: u64, b: u64) -> bool
    ensures { result ≡ is_taken op a b }
{
    match op {
        BranchOp::Beq => a == b,
        BranchOp::Bne => a != b,
        BranchOp::Blt => is_below(a, b),
        BranchOp::Bge => !is_below(a, b),
        BranchOp::Bltu => a < b,
        BranchOp::Bgeu => a >= b,
    }
}
