ghost use Rattle.std.specs.Prelude.{◌≡◌, IfOk, length, slice_get};
ghost use Rattle.vm_words.specs.Turns.{are_turns, names_absent, turn_named, turns_named};

use ram_block::NoMemory;
use std::alloc::Global;
use std::marker::Model;

/// The most turns that a line names, and as many as are drawn where it names none. It is no number of bytes: the most
/// input is as many by chance.
pub const MAX_TURNS: usize = 4096;

/// Whose turn it is.
#[derive(Clone, Copy, Debug, PartialEq, Eq)]
pub enum TurnOf {
    /// The vCPU of this number, counted from 0.
    Cpu(u32),
    Saver,
}

/// The turns of a run in one thread, in their order.
#[derive(Debug, Drop)]
pub struct Turns {
    turns: Vec<TurnOf>,
}

impl Model for Turns {
    ghost use Rattle.std.specs.Prelude.{List};
    ghost use Rattle.vm_words.specs.declared.turns.TurnOf.{TurnOf};

    ghost Value = { List TurnOf };

    ghost view = { λ t. t.turns.items };
}

impl Turns {
    /// The turns of a list.
    pub(crate) fn of(turns: Vec<TurnOf>) -> Turns
        ensures { result ≡ turns.items }
    {
        Turns { turns }
    }

    /// The turn of this number, counted from 0.
    pub fn get(&self, i: usize) -> Option<TurnOf>
        ensures { result ≡ slice_get self.now i }
    {
        self.turns.get(i).copied()
    }

    /// How many turns there are.
    pub fn count(&self) -> usize
        ensures { result ≡ length self.now }
    {
        self.turns.len()
    }
}

/// Whether every character of a text is a turn: `s` for the saver, a digit from 0 to 7 for that vCPU.
pub(crate) fn are_turns(text: &str) -> bool
    ensures { result ≡ are_turns text.now }
{
    text.as_bytes().iter().all(|c| turn_named(*c).is_some())
}

/// The turns of all characters of a text.
pub(crate) fn turns_named(alloc: Global, text: &str) -> Result<Turns, NoMemory>
    ensures { IfOk result (λ turns. turns ≡ turns_named text.now) }
{
    let mut turns = Vec::new(alloc);
    for c in text.as_bytes() {
        if let Some(turn) = turn_named(*c) {
            turns.push(turn)?;
        }
    }
    Ok(Turns::of(turns))
}

/// Whether some turn of a text is that of a vCPU which isn't among so many.
pub(crate) fn names_absent(vcpus: u64, text: &str) -> bool
    ensures { result ≡ names_absent vcpus text.now }
{
    for c in text.as_bytes() {
        if let Some(TurnOf::Cpu(k)) = turn_named(*c) {
            if u64::from(k) >= vcpus {
                return true;
            }
        }
    }
    false
}

// The turn of a character.
fn turn_named(c: u8) -> Option<TurnOf>
    ensures { result ≡ turn_named c }
{
    match c {
        b's' => Some(TurnOf::Saver),
        b'0'..=b'7' => Some(TurnOf::Cpu(u32::from(c - b'0'))),
        _ => None,
    }
}
