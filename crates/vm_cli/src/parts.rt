ghost use Rattle.std.specs.Prelude.{◌≡◌, ◌+◌, ◌<◌, [], ◌∷◌, ◌++◌, option_map, OnOk, OnErr};
ghost use Rattle.std.specs.Fmt.{decimal};
ghost use Rattle.medium.specs.Bytes.{AddsFront, BecomesTold};
ghost use Rattle.medium.specs.Count.{HasCause};
ghost use Rattle.vm_cli.specs.Parts.{part_text, parts_text};

use medium::{Failed, Sink};

/// A part of a line: a text, or a number that is written in decimal digits.
#[derive(Clone, Copy, Debug)]
pub(crate) enum Part {
    Text(&'static str),
    Number(u64),
}

/// Writes the parts one after the other. It takes no memory.
pub(crate) fn put_parts<K: Sink>(console: &mut K, parts: &[Part]) -> Result<(), Failed>
    ensures all { OnOk result (K.taken console.new ≡ option_map (λ before. before ++ parts_text parts.now) (K.taken console.old)) }
    ensures some { OnErr result (BecomesTold (AddsFront (parts_text parts.now)) (K.taken console.old) (K.taken console.new)) }
    ensures cause { HasCause (K.faults console.old) (K.faults console.new) result }
{
    for part in parts {
        put_part(console, *part)?;
    }
    Ok(())
}

// Writes one part; an empty text asks for no call.
fn put_part<K: Sink>(console: &mut K, part: Part) -> Result<(), Failed>
    ensures all { OnOk result (K.taken console.new ≡ option_map (λ before. before ++ part_text part) (K.taken console.old)) }
    ensures some { OnErr result (BecomesTold (AddsFront (part_text part)) (K.taken console.old) (K.taken console.new)) }
    ensures cause { HasCause (K.faults console.old) (K.faults console.new) result }
{
    match part {
        Part::Text(text) if text.is_empty() => Ok(()),
        Part::Text(text) => console.write(text.as_bytes()),
        Part::Number(number) => put_number(console, number),
    }
}

// Writes a number in decimal digits, the highest first.
fn put_number<K: Sink>(console: &mut K, number: u64) -> Result<(), Failed>
    ensures all { OnOk result (K.taken console.new ≡ option_map (λ before. before ++ decimal number) (K.taken console.old)) }
    ensures some { OnErr result (BecomesTold (AddsFront (decimal number)) (K.taken console.old) (K.taken console.new)) }
    ensures cause { HasCause (K.faults console.old) (K.faults console.new) result }
{
    if number < 10 {
        return put_digit(console, number);
    }
    put_number(console, number / 10)?;
    put_digit(console, number % 10)
}

// Writes a number below ten as its digit.
fn put_digit<K: Sink>(console: &mut K, digit: u64) -> Result<(), Failed>
    requires { digit < 10 }
    ensures all { OnOk result (K.taken console.new ≡ option_map (λ before. before ++ (48 + digit) ∷ []) (K.taken console.old)) }
    ensures some { OnErr result (BecomesTold (AddsFront ((48 + digit) ∷ [])) (K.taken console.old) (K.taken console.new)) }
    ensures cause { HasCause (K.faults console.old) (K.faults console.new) result }
{
    console.write(&[b'0' + digit as u8])
}
