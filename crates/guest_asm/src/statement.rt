ghost use Rattle.std.specs.Prelude.{◌≡◌, IfSome};
ghost use Rattle.std.specs.Option.{option_map};
ghost use Rattle.guest_asm.specs.Operand.{register_in};
ghost use Rattle.guest_asm.specs.Parts.{operands_value};
ghost use Rattle.guest_asm.specs.Statement.{operands_of, pair_of, target_of};
ghost use Rattle.guest_asm.specs.Steps.{FitsForm, HasSmallRegisters, IsSmall};

use crate::number::number_of;
use crate::operand::{indexed, register_at, register_in, target_in};
use crate::text::cut;
use crate::{Form, Operands};

/// The operands that a text is in this form.
#[tactic(auto, unfolding(crate::specs::Statement::operands_of))]
pub(crate) fn operands_of<'a>(form: Form, text: &'a [u8]) -> Option<Operands<'a>>
    ensures value { option_map operands_value result ≡ operands_of form text.now }
    ensures small { IfSome result (λ o. HasSmallRegisters (operands_value o)) }
    ensures target { IfSome result (λ o. FitsForm form (target_of (operands_value o))) }
{
    match form {
        Form::Bare if text.is_empty() => Some(Operands::Bare),
        Form::Bare => None,
        Form::Registers => {
            let (a, b, third) = two_registers(text)?;
            Some(Operands::Registers(a, b, register_in(third)?))
        }
        Form::RegistersAt => {
            let (a, b, third) = two_registers(text)?;
            Some(Operands::Registers(a, b, register_at(third)?))
        }
        Form::RegistersNumber => {
            let (a, b, third) = two_registers(text)?;
            Some(Operands::RegistersNumber(a, b, number_of(third)?))
        }
        Form::Indexed => {
            let (a, second) = one_register(text)?;
            let (number, base) = indexed(second)?;
            Some(Operands::RegistersNumber(a, base, number))
        }
        Form::RegistersTarget => {
            let (a, b, third) = two_registers(text)?;
            Some(Operands::RegistersTarget(a, b, target_in(third)?))
        }
        Form::RegisterTarget => {
            let (a, second) = one_register(text)?;
            Some(Operands::RegisterTarget(a, target_in(second)?))
        }
        Form::RegisterNumber => {
            let (a, second) = one_register(text)?;
            Some(Operands::RegisterNumber(a, number_of(second)?))
        }
        Form::Number => Some(Operands::Number(number_of(text)?)),
    }
}

// A register before a comma, and what follows the comma.
fn one_register(text: &[u8]) -> Option<(Option<u8>, &[u8])>
    ensures value { option_map (λ p. (p.0, p.1.now)) result ≡ pair_of register_in (λ rest. Some rest) text.now }
    ensures small { IfSome result (λ p. IsSmall p.0) }
{
    let (name, rest) = cut(text, b',')?;
    Some((register_in(name)?, rest))
}

// Two registers, each before a comma, and what follows the second comma.
fn two_registers(text: &[u8]) -> Option<(Option<u8>, Option<u8>, &[u8])>
    ensures value { option_map (λ p. (p.0, (p.1, p.2.now))) result
        ≡ pair_of register_in (pair_of register_in (λ rest. Some rest)) text.now }
    ensures small { IfSome result (λ p. IsSmall p.0 × IsSmall p.1) }
{
    let (a, rest) = one_register(text)?;
    let (b, rest) = one_register(rest)?;
    Some((a, b, rest))
}
