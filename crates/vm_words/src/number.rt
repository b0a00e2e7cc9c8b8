ghost use Rattle.std.specs.Prelude.{◌≡◌};
ghost use Rattle.std.specs.Char.{is_ascii_digit};
ghost use Rattle.std.specs.List.{list_all};
ghost use Rattle.vm_words.specs.Number.{is_decimal, number_within};

/// The most digits of a number.
const MAX_DIGITS: usize = 20;

/// The number that a text is, where it is one from the least to the most: 1 to 20 decimal digits.
pub(crate) fn number_within(least: u64, most: u64, text: &str) -> Option<u64>
    ensures { result ≡ number_within least most text.now }
{
    if !is_decimal(text) {
        return None;
    }
    match text.parse::<u64>() {
        Ok(number) if least <= number && number <= most => Some(number),
        _ => None,
    }
}

// Whether a text is 1 to 20 decimal digits.
fn is_decimal(text: &str) -> bool
    ensures { result ≡ is_decimal text.now }
{
    !text.is_empty() && text.len() <= MAX_DIGITS && are_digits(text)
}

// Whether every byte of a text is a digit.
fn are_digits(text: &str) -> bool
    ensures { result ≡ list_all is_ascii_digit text.now }
{
    text.as_bytes().iter().all(|byte| byte.is_ascii_digit())
}
