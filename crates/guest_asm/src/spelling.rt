ghost use Rattle.std.specs.Prelude.{◌≡◌, ◌<◌};
ghost use Rattle.guest_asm.specs.Mnemonic.{amo_text, branch_text, imm_text, load_text, reg_text, reg_w_text, shift_text, shift_w_text, store_text, suffix_text};

use rv64i_decode::{AmoOp, BranchOp, ImmOp, LoadOp, RegOp, RegWOp, ShiftOp, StoreOp};

pub(crate) fn of_reg(op: RegOp) -> &'static str
    ensures { result.now ≡ reg_text op }
{
    match op {
        RegOp::Add => "add",
        RegOp::Sll => "sll",
        RegOp::Slt => "slt",
        RegOp::Sltu => "sltu",
        RegOp::Xor => "xor",
        RegOp::Srl => "srl",
        RegOp::Or => "or",
        RegOp::And => "and",
        RegOp::Sub => "sub",
        RegOp::Sra => "sra",
    }
}

pub(crate) fn of_reg_w(op: RegWOp) -> &'static str
    ensures { result.now ≡ reg_w_text op }
{
    match op {
        RegWOp::Addw => "addw",
        RegWOp::Sllw => "sllw",
        RegWOp::Srlw => "srlw",
        RegWOp::Subw => "subw",
        RegWOp::Sraw => "sraw",
    }
}

pub(crate) fn of_imm(op: ImmOp) -> &'static str
    ensures { result.now ≡ imm_text op }
{
    match op {
        ImmOp::Addi => "addi",
        ImmOp::Slti => "slti",
        ImmOp::Sltiu => "sltiu",
        ImmOp::Xori => "xori",
        ImmOp::Ori => "ori",
        ImmOp::Andi => "andi",
    }
}

pub(crate) fn of_shift(op: ShiftOp) -> &'static str
    ensures { result.now ≡ shift_text op }
{
    match op {
        ShiftOp::Left => "slli",
        ShiftOp::Right => "srli",
        ShiftOp::RightSigned => "srai",
    }
}

pub(crate) fn of_shift_w(op: ShiftOp) -> &'static str
    ensures { result.now ≡ shift_w_text op }
{
    match op {
        ShiftOp::Left => "slliw",
        ShiftOp::Right => "srliw",
        ShiftOp::RightSigned => "sraiw",
    }
}

pub(crate) fn of_load(op: LoadOp) -> &'static str
    ensures { result.now ≡ load_text op }
{
    match op {
        LoadOp::Lb => "lb",
        LoadOp::Lh => "lh",
        LoadOp::Lw => "lw",
        LoadOp::Ld => "ld",
        LoadOp::Lbu => "lbu",
        LoadOp::Lhu => "lhu",
        LoadOp::Lwu => "lwu",
    }
}

pub(crate) fn of_store(op: StoreOp) -> &'static str
    ensures { result.now ≡ store_text op }
{
    match op {
        StoreOp::Sb => "sb",
        StoreOp::Sh => "sh",
        StoreOp::Sw => "sw",
        StoreOp::Sd => "sd",
    }
}

pub(crate) fn of_branch(op: BranchOp) -> &'static str
    ensures { result.now ≡ branch_text op }
{
    match op {
        BranchOp::Beq => "beq",
        BranchOp::Bne => "bne",
        BranchOp::Blt => "blt",
        BranchOp::Bge => "bge",
        BranchOp::Bltu => "bltu",
        BranchOp::Bgeu => "bgeu",
    }
}

/// The name of an AMO instruction up to its dot.
pub(crate) fn of_amo(op: AmoOp) -> &'static str
    ensures { result.now ≡ amo_text op }
{
    match op {
        AmoOp::Add => "amoadd",
        AmoOp::Swap => "amoswap",
        AmoOp::Xor => "amoxor",
        AmoOp::Or => "amoor",
        AmoOp::And => "amoand",
        AmoOp::Min => "amomin",
        AmoOp::Max => "amomax",
        AmoOp::Minu => "amominu",
        AmoOp::Maxu => "amomaxu",
    }
}

/// What follows the dot: the width, which is wide for a doubleword, and the order.
pub(crate) fn of_suffix(wide: bool, order: u8) -> &'static str
    requires { order < 4 }
    ensures { result.now ≡ suffix_text (wide, order) }
{
    match (wide, order) {
        (false, 0) => "w",
        (false, 1) => "w.rl",
        (false, 2) => "w.aq",
        (false, _) => "w.aqrl",
        (true, 0) => "d",
        (true, 1) => "d.rl",
        (true, 2) => "d.aq",
        (true, _) => "d.aqrl",
    }
}
