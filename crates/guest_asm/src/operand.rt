ghost use Rattle.std.specs.Prelude.{◌≡◌, IfSome, if◌then◌else◌};
ghost use Rattle.std.specs.Option.{option_map};
ghost use Rattle.guest_asm.specs.Operand.{before_register, indexed, register_at, register_in, register_named, target_in};
ghost use Rattle.guest_asm.specs.Parts.{operands_value, target_value};
ghost use Rattle.guest_asm.specs.Statement.{are_registers, registers_of, target_of};
ghost use Rattle.guest_asm.specs.Facts.{AreBelow32};
ghost use Rattle.guest_asm.specs.Steps.{HasSmallRegisters, IsSmall};

use crate::number::{number_in_radix, number_of};
use crate::text::{cut, is_identifier};

/// A target: an offset, or the name of a label.
#[derive(Clone, Copy)]
pub(crate) enum Target<'a> {
    Number(i128),
    Label(&'a [u8]),
}

/// The operands of a statement in form. A register's place has `None` where the identifier is no register.
#[derive(Clone, Copy)]
pub(crate) enum Operands<'a> {
    Bare,
    Registers(Option<u8>, Option<u8>, Option<u8>),
    RegistersNumber(Option<u8>, Option<u8>, i128),
    RegistersTarget(Option<u8>, Option<u8>, Target<'a>),
    RegisterNumber(Option<u8>, i128),
    RegisterTarget(Option<u8>, Target<'a>),
    Number(i128),
}

/// The registers of operands in the order in which they stand; 0 where there is none.
#[derive(Clone, Copy)]
pub(crate) struct Registers {
    pub(crate) first: u8,
    pub(crate) second: u8,
    pub(crate) third: u8,
}

/// The register that an identifier is: `x0` to `x31`.
#[tactic(auto, unfolding(crate::specs::Operand::register_named))]
pub(crate) fn register_named(name: &[u8]) -> Option<u8>
    ensures value { result ≡ register_named name.now }
    ensures small { IsSmall result }
{
    let [b'x', digits @ ..] = name else {
        return None;
    };
    if let [b'0', _] = digits {
        return None;
    }
    match number_in_radix(10, 2, digits) {
        Some(number) if number < 32 => Some(number as u8),
        _ => None,
    }
}

/// What stands in a register's place, with the register that it is.
#[tactic(auto, unfolding(crate::specs::Operand::register_in))]
pub(crate) fn register_in(text: &[u8]) -> Option<Option<u8>>
    ensures value { result ≡ register_in text.now }
    ensures small { IfSome result IsSmall }
{
    if !is_identifier(text) {
        return None;
    }
    Some(register_named(text))
}

/// A target in form.
#[tactic(auto, unfolding(crate::specs::Operand::target_in))]
pub(crate) fn target_in<'a>(text: &'a [u8]) -> Option<Target<'a>>
    ensures { option_map target_value result ≡ target_in text.now }
{
    if is_identifier(text) {
        return Some(Target::Label(text));
    }
    Some(Target::Number(number_of(text)?))
}

// A register between parentheses, and what stands before them.
fn before_register(text: &[u8]) -> Option<(&[u8], Option<u8>)>
    ensures value { option_map (λ p. (p.0.now, p.1)) result ≡ before_register text.now }
    ensures small { IfSome result (λ p. IsSmall p.1) }
{
    let (before, behind) = cut(text, b'(')?;
    let (name, rest) = cut(behind, b')')?;
    if !rest.is_empty() {
        return None;
    }
    Some((before, register_in(name)?))
}

/// A register between parentheses alone.
#[tactic(auto, unfolding(crate::specs::Operand::register_at))]
pub(crate) fn register_at(text: &[u8]) -> Option<Option<u8>>
    ensures value { result ≡ register_at text.now }
    ensures small { IfSome result IsSmall }
{
    let (before, register) = before_register(text)?;
    if !before.is_empty() {
        return None;
    }
    Some(register)
}

/// A number before a register between parentheses.
#[tactic(auto, unfolding(crate::specs::Operand::indexed))]
pub(crate) fn indexed(text: &[u8]) -> Option<(i128, Option<u8>)>
    ensures value { result ≡ indexed text.now }
    ensures small { IfSome result (λ p. IsSmall p.1) }
{
    let (before, register) = before_register(text)?;
    Some((number_of(before)?, register))
}

impl<'a> Operands<'a> {
    /// The registers, where all of them are registers.
    pub(crate) fn registers(self) -> Option<Registers>
        requires { HasSmallRegisters (operands_value self) }
        ensures value { result ≡ (if are_registers (operands_value self.entry) then Some (registers_of (operands_value self.entry)) else None) }
        ensures small { IfSome result AreBelow32 }
    {
        match self {
            Operands::Bare | Operands::Number(_) => Some(numbered(0, 0, 0)),
            Operands::Registers(a, b, c) => Some(numbered(a?, b?, c?)),
            Operands::RegistersNumber(a, b, _) => Some(numbered(a?, b?, 0)),
            Operands::RegistersTarget(a, b, _) => Some(numbered(a?, b?, 0)),
            Operands::RegisterNumber(a, _) => Some(numbered(a?, 0, 0)),
            Operands::RegisterTarget(a, _) => Some(numbered(a?, 0, 0)),
        }
    }

    /// The number or the target, where there is one.
    pub(crate) fn target(self) -> Option<Target<'a>>
        ensures { option_map target_value result ≡ target_of (operands_value self.entry) }
    {
        match self {
            Operands::Bare | Operands::Registers(..) => None,
            Operands::RegistersNumber(_, _, number) => Some(Target::Number(number)),
            Operands::RegistersTarget(_, _, target) => Some(target),
            Operands::RegisterNumber(_, number) => Some(Target::Number(number)),
            Operands::RegisterTarget(_, target) => Some(target),
            Operands::Number(number) => Some(Target::Number(number)),
        }
    }
}

fn numbered(first: u8, second: u8, third: u8) -> Registers
    ensures { result ≡ record { first = first; second = second; third = third } }
{
    Registers {
        first,
        second,
        third,
    }
}
