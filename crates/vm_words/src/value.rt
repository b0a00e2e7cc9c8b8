ghost use Rattle.std.specs.Prelude.{◌≡◌, map, string_bytes};
ghost use Rattle.std.specs.Option.{option_copied};
ghost use Rattle.vm_words.specs.Word.{after, value_after, value_in};

/// What follows `key=` in the first word that begins so. It looks at every word, word 0 included.
pub fn value_of<'a>(words: &'a [String], key: &str) -> Option<&'a str>
    ensures { option_copied result ≡ value_in (map string_bytes words.now) key.now }
{
    for word in words {
        if let Some(value) = value_after(word.as_str(), key) {
            return Some(value);
        }
    }
    None
}

// What follows `key=`, where the word begins so.
pub(crate) fn value_after<'a>(word: &'a str, key: &str) -> Option<&'a str>
    ensures { option_copied result ≡ value_after word.now key.now }
{
    match text_after(word, key) {
        Some(rest) => text_after(rest, "="),
        None => None,
    }
}

// What follows the front, where the text begins with it.
fn text_after<'a>(text: &'a str, front: &str) -> Option<&'a str>
    ensures { option_copied result ≡ after text.now front.now }
{
    match text.strip_prefix(front) {
        Some(rest) => Some(rest),
        None => None,
    }
}
