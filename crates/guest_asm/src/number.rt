ghost use Rattle.std.specs.Prelude.{◌≡◌, ◌<◌, ◌≤◌, ◌^◌, IfSome, IsTrue, length};
ghost use Rattle.std.specs.Char.{digit_value};
ghost use Rattle.std.specs.Str.Parse.{digits_value};
ghost use Rattle.guest_asm.specs.Number.{are_digits, has_digits, magnitude, number_in_radix, number_of};

/// The number that a text is: an optional `-`, then 1 to 20 decimal digits or `0x` and 1 to 16 hexadecimal ones.
#[tactic(auto, unfolding(crate::specs::Number::number_of))]
pub(crate) fn number_of(text: &[u8]) -> Option<i128>
    ensures { result ≡ number_of text.now }
{
    match text {
        [] => None,
        [b'-', digits @ ..] => Some(-(magnitude(digits)? as i128)),
        _ => Some(magnitude(text)? as i128),
    }
}

// The number that a text without a sign is.
fn magnitude(text: &[u8]) -> Option<u128>
    ensures value { result ≡ magnitude text.now }
    ensures small { IfSome result (λ n. n < 2 ^ 80) }
{
    if text.starts_with(b"0x") {
        number_in_radix(16, 16, &text[2..])
    } else {
        number_in_radix(10, 20, text)
    }
}

/// The number that so many digits of a radix at most, and one at least, write.
pub(crate) fn number_in_radix(radix: u32, most: usize, text: &[u8]) -> Option<u128>
    requires least { 2 ≤ radix }
    requires greatest { radix ≤ 16 }
    requires most { most ≤ 20 }
    ensures value { result ≡ number_in_radix radix most text.now }
    ensures small { IfSome result (λ n. n < 2 ^ 80) }
{
    if !are_digits(radix, most, text) {
        return None;
    }
    Some(digits_value(radix, most, text))
}

fn are_digits(radix: u32, most: usize, text: &[u8]) -> bool
    ensures { result ≡ are_digits radix most text.now }
{
    1 <= text.len() && text.len() <= most && has_digits(radix, text)
}

#[tactic(auto, unfolding(crate::specs::Number::has_digits))]
fn has_digits(radix: u32, text: &[u8]) -> bool
    ensures { result ≡ has_digits radix text.now }
{
    text.iter().all(|c| digit_value(*c) < radix)
}

fn digits_value(radix: u32, most: usize, text: &[u8]) -> u128
    requires least { 2 ≤ radix }
    requires greatest { radix ≤ 16 }
    requires most { most ≤ 20 }
    requires digits { IsTrue (are_digits radix most text.now) }
    ensures value { result ≡ digits_value radix text.now }
    ensures small { result < 2 ^ 80 }
{
    let mut value = 0;
    for c in text {
        value = value * u128::from(radix) + u128::from(digit_value(*c));
    }
    value
}

// The value of a digit, and 36 where the byte is none and no letter either.
fn digit_value(c: u8) -> u32
    ensures { result ≡ digit_value c }
{
    char::from(c).to_digit(36).unwrap_or(36)
}
