ghost use Rattle.std.specs.Prelude.{◌≡◌, ◌<◌, IfSome};
ghost use Rattle.std.specs.Str.{bytes_eq};
ghost use Rattle.guest_asm.specs.Mnemonic.{amo_named, amo_op_named, amo_with, form_of, mnemonic_named, mnemonic_name, plain_named, suffix_named};
ghost use Rattle.guest_asm.specs.Facts.{HasSmallOrder};

use crate::Directive;
use crate::spelling::{
    of_amo, of_branch, of_imm, of_load, of_reg, of_reg_w, of_shift, of_shift_w, of_store,
};
use crate::text::place_of;
use rv64i_decode::{AmoOp, BranchOp, ImmOp, LoadOp, RegOp, RegWOp, ShiftOp, StoreOp};

/// What the first word of a statement names: an instruction, or bytes that are given.
#[derive(Clone, Copy)]
pub(crate) enum Mnemonic {
    Op(RegOp),
    OpW(RegWOp),
    Imm(ImmOp),
    ImmW,
    Shift(ShiftOp),
    ShiftW(ShiftOp),
    Load(LoadOp),
    Jalr,
    Store(StoreOp),
    Branch(BranchOp),
    Jal,
    Lui,
    Auipc,
    /// Wide for a doubleword; the order has aq as its 2 and rl as its 1.
    Amo(AmoOp, bool, u8),
    Fence,
    Ecall,
    Ebreak,
    Data(Directive),
    Zero,
}

/// The operands that follow a mnemonic, in the order in which they stand.
#[derive(Clone, Copy)]
pub(crate) enum Form {
    /// None.
    Bare,
    /// Three registers.
    Registers,
    /// Two registers, and a third between parentheses.
    RegistersAt,
    /// Two registers and a number.
    RegistersNumber,
    /// A register, and a number before a register between parentheses.
    Indexed,
    /// Two registers and a target.
    RegistersTarget,
    /// A register and a target.
    RegisterTarget,
    /// A register and a number.
    RegisterNumber,
    /// A number.
    Number,
}

// All mnemonics but the AMO instructions.
const PLAIN: [Mnemonic; 56] = [
    Mnemonic::Op(RegOp::Add),
    Mnemonic::Op(RegOp::Sll),
    Mnemonic::Op(RegOp::Slt),
    Mnemonic::Op(RegOp::Sltu),
    Mnemonic::Op(RegOp::Xor),
    Mnemonic::Op(RegOp::Srl),
    Mnemonic::Op(RegOp::Or),
    Mnemonic::Op(RegOp::And),
    Mnemonic::Op(RegOp::Sub),
    Mnemonic::Op(RegOp::Sra),
    Mnemonic::OpW(RegWOp::Addw),
    Mnemonic::OpW(RegWOp::Sllw),
    Mnemonic::OpW(RegWOp::Srlw),
    Mnemonic::OpW(RegWOp::Subw),
    Mnemonic::OpW(RegWOp::Sraw),
    Mnemonic::Imm(ImmOp::Addi),
    Mnemonic::Imm(ImmOp::Slti),
    Mnemonic::Imm(ImmOp::Sltiu),
    Mnemonic::Imm(ImmOp::Xori),
    Mnemonic::Imm(ImmOp::Ori),
    Mnemonic::Imm(ImmOp::Andi),
    Mnemonic::ImmW,
    Mnemonic::Shift(ShiftOp::Left),
    Mnemonic::Shift(ShiftOp::Right),
    Mnemonic::Shift(ShiftOp::RightSigned),
    Mnemonic::ShiftW(ShiftOp::Left),
    Mnemonic::ShiftW(ShiftOp::Right),
    Mnemonic::ShiftW(ShiftOp::RightSigned),
    Mnemonic::Load(LoadOp::Lb),
    Mnemonic::Load(LoadOp::Lh),
    Mnemonic::Load(LoadOp::Lw),
    Mnemonic::Load(LoadOp::Ld),
    Mnemonic::Load(LoadOp::Lbu),
    Mnemonic::Load(LoadOp::Lhu),
    Mnemonic::Load(LoadOp::Lwu),
    Mnemonic::Jalr,
    Mnemonic::Store(StoreOp::Sb),
    Mnemonic::Store(StoreOp::Sh),
    Mnemonic::Store(StoreOp::Sw),
    Mnemonic::Store(StoreOp::Sd),
    Mnemonic::Branch(BranchOp::Beq),
    Mnemonic::Branch(BranchOp::Bne),
    Mnemonic::Branch(BranchOp::Blt),
    Mnemonic::Branch(BranchOp::Bge),
    Mnemonic::Branch(BranchOp::Bltu),
    Mnemonic::Branch(BranchOp::Bgeu),
    Mnemonic::Jal,
    Mnemonic::Lui,
    Mnemonic::Auipc,
    Mnemonic::Fence,
    Mnemonic::Ecall,
    Mnemonic::Ebreak,
    Mnemonic::Data(Directive::Byte),
    Mnemonic::Data(Directive::Word),
    Mnemonic::Data(Directive::Dword),
    Mnemonic::Zero,
];

impl Mnemonic {
    /// The mnemonic that a word is.
    #[tactic(auto, using(crate::proofs::Finds::plain_orders), unfolding(crate::specs::Mnemonic::mnemonic_named))]
    pub(crate) fn named(word: &[u8]) -> Option<Mnemonic>
        ensures value { result ≡ mnemonic_named word.now }
        ensures order { IfSome result HasSmallOrder }
    {
        match plain_named(word) {
            Some(mnemonic) => Some(mnemonic),
            None => amo_named(word),
        }
    }

    /// The form of its operands.
    pub(crate) fn form(self) -> Form
        ensures { result ≡ form_of self }
    {
        match self {
            Mnemonic::Op(_) | Mnemonic::OpW(_) => Form::Registers,
            Mnemonic::Imm(_) | Mnemonic::ImmW | Mnemonic::Shift(_) | Mnemonic::ShiftW(_) => {
                Form::RegistersNumber
            }
            Mnemonic::Load(_) | Mnemonic::Jalr | Mnemonic::Store(_) => Form::Indexed,
            Mnemonic::Branch(_) => Form::RegistersTarget,
            Mnemonic::Jal => Form::RegisterTarget,
            Mnemonic::Lui | Mnemonic::Auipc => Form::RegisterNumber,
            Mnemonic::Amo(..) => Form::RegistersAt,
            Mnemonic::Fence | Mnemonic::Ecall | Mnemonic::Ebreak => Form::Bare,
            Mnemonic::Data(_) | Mnemonic::Zero => Form::Number,
        }
    }
}

// The mnemonic that is written so, but for the AMO instructions.
fn plain_named(word: &[u8]) -> Option<Mnemonic>
    ensures { result ≡ plain_named word.now }
{
    PLAIN
        .iter()
        .copied()
        .find(|mnemonic| is_text(mnemonic_name(*mnemonic), word))
}

// How a mnemonic is written, up to the dot of an AMO instruction.
fn mnemonic_name(mnemonic: Mnemonic) -> &'static str
    ensures { result.now ≡ mnemonic_name mnemonic }
{
    match mnemonic {
        Mnemonic::Op(op) => of_reg(op),
        Mnemonic::OpW(op) => of_reg_w(op),
        Mnemonic::Imm(op) => of_imm(op),
        Mnemonic::ImmW => "addiw",
        Mnemonic::Shift(op) => of_shift(op),
        Mnemonic::ShiftW(op) => of_shift_w(op),
        Mnemonic::Load(op) => of_load(op),
        Mnemonic::Jalr => "jalr",
        Mnemonic::Store(op) => of_store(op),
        Mnemonic::Branch(op) => of_branch(op),
        Mnemonic::Jal => "jal",
        Mnemonic::Lui => "lui",
        Mnemonic::Auipc => "auipc",
        Mnemonic::Amo(op, ..) => of_amo(op),
        Mnemonic::Fence => "fence",
        Mnemonic::Ecall => "ecall",
        Mnemonic::Ebreak => "ebreak",
        Mnemonic::Data(directive) => directive.text(),
        Mnemonic::Zero => ".zero",
    }
}

// The AMO instruction that is written so: an operation, a dot and a suffix.
fn amo_named(word: &[u8]) -> Option<Mnemonic>
    ensures value { result ≡ amo_named word.now }
    ensures order { IfSome result HasSmallOrder }
{
    let dot = place_of(word, b'.')?;
    amo_with(&word[..dot], &word[dot + 1..])
}

fn amo_with(name: &[u8], suffix: &[u8]) -> Option<Mnemonic>
    ensures value { result ≡ amo_with name.now suffix.now }
    ensures order { IfSome result HasSmallOrder }
{
    let op = amo_op_named(name)?;
    let (wide, order) = suffix_named(suffix)?;
    Some(Mnemonic::Amo(op, wide, order))
}

const AMO_OPS: [AmoOp; 9] = [
    AmoOp::Add,
    AmoOp::Swap,
    AmoOp::Xor,
    AmoOp::Or,
    AmoOp::And,
    AmoOp::Min,
    AmoOp::Max,
    AmoOp::Minu,
    AmoOp::Maxu,
];

fn amo_op_named(word: &[u8]) -> Option<AmoOp>
    ensures { result ≡ amo_op_named word.now }
{
    AMO_OPS
        .iter()
        .copied()
        .find(|op| is_text(of_amo(*op), word))
}

fn suffix_named(word: &[u8]) -> Option<(bool, u8)>
    ensures value { result ≡ suffix_named word.now }
    ensures order { IfSome result (λ suffix. suffix.1 < 4) }
{
    match word {
        b"w" => Some((false, 0)),
        b"w.rl" => Some((false, 1)),
        b"w.aq" => Some((false, 2)),
        b"w.aqrl" => Some((false, 3)),
        b"d" => Some((true, 0)),
        b"d.rl" => Some((true, 1)),
        b"d.aq" => Some((true, 2)),
        b"d.aqrl" => Some((true, 3)),
        _ => None,
    }
}

fn is_text(text: &str, word: &[u8]) -> bool
    ensures { result ≡ bytes_eq text.now word.now }
{
    text.as_bytes() == word
}
