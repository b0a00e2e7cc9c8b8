ghost use Rattle.std.specs.Prelude.{◌≡◌, ◌+◌, ◌==◌, ◌<◌, IfSome, length, take, drop};
ghost use Rattle.std.specs.List.{list_all, position};
ghost use Rattle.std.specs.Option.{option_map};
ghost use Rattle.guest_asm.specs.Line.{begins_identifier, code_of, continues_identifier, cut, first_word, is_blank, is_identifier, rest_of, trim, trim_end, trim_front};

/// A text without the blanks at both ends.
pub(crate) fn trim(text: &[u8]) -> &[u8]
    ensures { result.now ≡ trim text.now }
{
    trim_end(trim_front(text))
}

fn trim_front(text: &[u8]) -> &[u8]
    ensures { result.now ≡ trim_front text.now }
{
    let mut start = 0;
    while start < text.len() && is_blank(text[start]) {
        start += 1;
    }
    &text[start..]
}

fn trim_end(text: &[u8]) -> &[u8]
    ensures { result.now ≡ trim_end text.now }
{
    let mut end = text.len();
    while end > 0 && is_blank(text[end - 1]) {
        end -= 1;
    }
    &text[..end]
}

#[tactic(auto, unfolding(crate::specs::Line::is_blank))]
fn is_blank(byte: u8) -> bool
    ensures { result ≡ is_blank byte }
{
    byte == b' ' || byte == b'\t' || byte == b'\r'
}

/// The parts round the first such byte, without the blanks round them.
pub(crate) fn cut(text: &[u8], byte: u8) -> Option<(&[u8], &[u8])>
    ensures { option_map (λ p. (p.0.now, p.1.now)) result ≡ cut byte text.now }
{
    let i = place_of(text, byte)?;
    let (front, back) = around(text, i);
    Some((trim(front), trim(back)))
}

/// The parts before and behind a byte.
pub(crate) fn around(text: &[u8], i: usize) -> (&[u8], &[u8])
    requires { i < length text.now }
    ensures front { result.0.now ≡ take i text.now }
    ensures back { result.1.now ≡ drop (i + 1) text.now }
{
    (&text[..i], &text[i + 1..])
}

/// The place of the first such byte.
pub(crate) fn place_of(text: &[u8], byte: u8) -> Option<usize>
    ensures place { result ≡ position (λ b. b == byte) text.now }
    ensures within { IfSome result (λ i. i < length text.now) }
{
    text.iter().position(|b| *b == byte)
}

// The place of the first blank.
fn place_of_blank(text: &[u8]) -> Option<usize>
    ensures place { result ≡ position is_blank text.now }
    ensures within { IfSome result (λ i. i < length text.now) }
{
    text.iter().position(|b| is_blank(*b))
}

/// A line without its comment.
#[tactic(auto, using(crate::proofs::Pieces::before_first_at, crate::proofs::Pieces::before_first_none))]
pub(crate) fn code_of(text: &[u8]) -> &[u8]
    ensures { result.now ≡ code_of text.now }
{
    match place_of(text, b'#') {
        Some(i) => &text[..i],
        None => text,
    }
}

/// The first word of a statement.
#[tactic(auto, using(crate::proofs::Pieces::before_first_at, crate::proofs::Pieces::before_first_none))]
pub(crate) fn first_word(statement: &[u8]) -> &[u8]
    ensures { result.now ≡ first_word statement.now }
{
    match place_of_blank(statement) {
        Some(i) => &statement[..i],
        None => statement,
    }
}

/// What follows the first word.
#[tactic(auto, using(crate::proofs::Pieces::after_first_at, crate::proofs::Pieces::after_first_none))]
pub(crate) fn rest_of(statement: &[u8]) -> &[u8]
    ensures { result.now ≡ rest_of statement.now }
{
    match place_of_blank(statement) {
        Some(i) => trim(&statement[i + 1..]),
        None => &[],
    }
}

/// Whether a text is a letter or `_`, then letters, digits and `_`.
pub(crate) fn is_identifier(text: &[u8]) -> bool
    ensures { result ≡ is_identifier text.now }
{
    match text.split_first() {
        Some((first, rest)) => begins_identifier(*first) && continue_identifier(rest),
        None => false,
    }
}

fn continue_identifier(bytes: &[u8]) -> bool
    ensures { result ≡ list_all continues_identifier bytes.now }
{
    bytes.iter().all(|b| continues_identifier(*b))
}

#[tactic(auto, unfolding(crate::specs::Line::begins_identifier))]
fn begins_identifier(byte: u8) -> bool
    ensures { result ≡ begins_identifier byte }
{
    byte.is_ascii_alphabetic() || byte == b'_'
}

#[tactic(auto, unfolding(crate::specs::Line::continues_identifier))]
fn continues_identifier(byte: u8) -> bool
    ensures { result ≡ continues_identifier byte }
{
    byte.is_ascii_alphanumeric() || byte == b'_'
}
