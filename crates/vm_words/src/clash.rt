ghost use Rattle.std.specs.Prelude.{◌≡◌, ◌≢◌, ◌<◌, ◌≤◌, map, string_bytes, length, slice_get, IfSome};
ghost use Rattle.vm_words.specs.Line.{clash_at, faults_by, is_absent_turns, is_clash, is_idle_relay, is_len_past_ram};

use crate::given::{has_mode, number_given, shape_given};
use crate::turns::names_absent;
use crate::value::value_after;
use crate::{CommandName, KeyName, Quantity, UsageKind};

/// The first word of the rest of a line whose value doesn't go together with the others, by its index in the line.
pub(crate) fn first_clash(command: CommandName, rest: &[String]) -> Option<(u32, UsageKind)>
    requires { length rest.now ≤ 12 }
    ensures fault { let words = map string_bytes rest.now in
        result ≡ slice_get (faults_by (clash_at command words) words) 0 }
    ensures index { IfSome result (λ fault. fault.0 < 16) }
    ensures kind { IfSome result (λ fault. fault.1 ≢ UsageKind.NeedsThreads) }
{
    for (i, word) in rest.iter().enumerate() {
        if is_clash(command, rest, word.as_str()) {
            return Some((i as u32 + 1, UsageKind::Value));
        }
    }
    None
}

// Whether the value of a word doesn't go together with the others.
fn is_clash(command: CommandName, rest: &[String], word: &str) -> bool
    ensures { result ≡ is_clash command (map string_bytes rest.now) word.now }
{
    match command {
        CommandName::Save => is_absent_turns(rest, word) || is_idle_relay(rest, word),
        CommandName::Peek => is_len_past_ram(rest, word),
        _ => false,
    }
}

// Whether the turns that a word names are of an absent vCPU.
fn is_absent_turns(rest: &[String], word: &str) -> bool
    ensures { result ≡ is_absent_turns (map string_bytes rest.now) word.now }
{
    match value_after(word, KeyName::Turns.text()) {
        Some(text) => names_absent(number_given(rest, Quantity::Vcpus), text),
        None => false,
    }
}

// Whether a word gives a relay where no thread is there for it.
fn is_idle_relay(rest: &[String], word: &str) -> bool
    ensures { result ≡ is_idle_relay (map string_bytes rest.now) word.now }
{
    value_after(word, Quantity::Relay.text()).is_some()
        && number_given(rest, Quantity::Relay) != 0
        && !has_mode(rest, "threads")
}

// Whether a word gives a length that leads past RAM.
fn is_len_past_ram(rest: &[String], word: &str) -> bool
    ensures { result ≡ is_len_past_ram (map string_bytes rest.now) word.now }
{
    let end = number_given(rest, Quantity::At) + number_given(rest, Quantity::Len);
    value_after(word, Quantity::Len.text()).is_some() && shape_given(rest, 1).ram_bytes() < end
}
