ghost use Rattle.std.specs.Prelude.{◌≡◌, ℕ, List, ◌⊎◌, ◌≤◌, ◌<◌, ◌+◌, ◌-◌, ◌^◌, Ok, Err, length, take, drop, is_ok, if◌then◌else◌, IsErr, IfOk, IfSome};
ghost use Rattle.medium.specs.Count.{HasCause, HasRisen};
ghost use Rattle.medium.specs.States.{Leaves};
ghost use Rattle.medium.specs.Members.{file_state};
ghost use Rattle.mig_stream.specs.Pieces.{piece_in, text_in, ReadsPiece, ReadsText};
ghost use Rattle.mig_stream.specs.Turns.{IsFront, EndsIn, IsOther, IsCompared, Finds, note};
ghost use Rattle.mig_stream.specs.declared.text_fault.TextFault.TheVariants.{Field, Differs};
ghost use Rattle.mig_stream.specs.declared.field_fault.FieldFault.TheVariants.{Truncated, ReadFault};

use crate::{FieldFault, TextFault};
use medium::{Failed, Readable};

// How many bytes are read and compared in one turn.
const TURN: usize = 64;

/// Reads a file piece by piece, each whole: a file that it borrows, and a place in it.
#[derive(Drop)]
pub struct FieldReader<'a, M> {
    /// The file that is read.
    pub medium: &'a mut M,
    /// Where the next piece begins, in bytes from the file's start.
    pub at: u64,
}

impl<'a, M: Readable> FieldReader<'a, M> {
    /// A reader whose next piece begins at this place.
    pub fn new(medium: &'a mut M, at: u64) -> FieldReader<'a, M>
        ensures same_medium { result.medium.ghost_name ≡ medium.entry.ghost_name }
        ensures medium { result.medium.now ≡ medium.old }
        ensures at { result.at ≡ at }
    {
        FieldReader { medium, at }
    }

    /// Where the next piece begins.
    pub fn at(&self) -> u64
        ensures { result ≡ self.now.at }
    {
        self.at
    }

    /// The next piece begins at this place.
    pub fn seek(&mut self, at: u64)
        ensures same_medium { self.new.medium.ghost_name ≡ self.old.medium.ghost_name }
        ensures medium { self.new.medium.now ≡ self.old.medium.now }
        ensures at { self.new.at ≡ at }
    {
        self.at = at;
    }

    /// Reads the next piece whole, which is as long as the buffer. After an error the place is as before.
    pub fn take(&mut self, buf: &mut [u8]) -> Result<(), FieldFault>
        requires { self.old.at + length buf.old ≤ 2 ^ 40 }
        ensures answer { IfSome (M.told self.old.medium.now) (λ file. ReadsPiece (piece_in file self.old.at (length buf.old)) buf.new result) }
        ensures start { (p : ℕ) → result ≡ Err (Truncated p) → p ≡ self.old.at }
        ensures read_fault { result ≡ Err ReadFault → HasRisen (M.faults self.old.medium.now) (M.faults self.new.medium.now) }
        ensures at { self.new.at ≡ (if is_ok result then self.old.at + length buf.old else self.old.at) }
        ensures same_medium { self.new.medium.ghost_name ≡ self.old.medium.ghost_name }
        ensures leaves { Leaves (file_state M.Readable self.old.medium.now) (file_state M.Readable self.new.medium.now) }
    {
        let len = buf.len();
        match read_front(self.medium, self.at, buf) {
            Err(Failed) => Err(FieldFault::ReadFault),
            Ok(n) if n < len => Err(FieldFault::Truncated { at: self.at }),
            Ok(_) => {
                self.at += len as u64;
                Ok(())
            }
        }
    }

    /// Reads the next piece whole, which is as long as the text, and compares it with the text. After an
    /// error the place is as before.
    #[tactic(auto, using(crate::proofs::Same::told_same, crate::proofs::Same::told_differs))]
    pub fn expect(&mut self, text: &[u8]) -> Result<(), TextFault>
        requires { self.old.at + length text.now ≤ 2 ^ 40 }
        ensures answer { IfSome (M.told self.old.medium.now) (λ file. ReadsText (text_in file self.old.at text.now) result) }
        ensures differs { (p found : ℕ) → result ≡ Err (Differs p found) → (self.old.at ≤ p) × IsOther text.now (p - self.old.at) found }
        ensures start { (p : ℕ) → result ≡ Err (Field (Truncated p)) → p ≡ self.old.at }
        ensures read_fault { result ≡ Err (Field ReadFault) → HasRisen (M.faults self.old.medium.now) (M.faults self.new.medium.now) }
        ensures at { self.new.at ≡ (if is_ok result then self.old.at + length text.now else self.old.at) }
        ensures same_medium { self.new.medium.ghost_name ≡ self.old.medium.ghost_name }
        ensures leaves { Leaves (file_state M.Readable self.old.medium.now) (file_state M.Readable self.new.medium.now) }
    {
        match first_difference(self.medium, self.at, text) {
            Err(fault) => Err(TextFault::Field(fault)),
            Ok(Some((i, found))) => Err(TextFault::Differs {
                at: self.at + i as u64,
                found,
            }),
            Ok(None) => {
                self.at += text.len() as u64;
                Ok(())
            }
        }
    }
}

// Where the bytes from a place on first differ from the text, and what stands there.
#[tactic(auto, using(medium::proofs::Leaves::leaves_same, medium::proofs::Leaves::leaves_on, crate::proofs::Texts::compared_none))]
fn first_difference<M: Readable>(
    medium: &mut M,
    at: u64,
    text: &[u8],
) -> Result<Option<(usize, u8)>, FieldFault>
    requires { at + length text.now ≤ 2 ^ 40 }
    ensures differs { IfOk result (λ first. IfSome first (λ d. IsOther text.now d.0 d.1)) }
    ensures answer { IfSome (M.told medium.old) (λ file. Finds file at text.now result) }
    ensures start { (p : ℕ) → result ≡ Err (Truncated p) → p ≡ at }
    ensures read_fault { result ≡ Err ReadFault → HasRisen (M.faults medium.old) (M.faults medium.new) }
    ensures leaves { Leaves (file_state M.Readable medium.old) (file_state M.Readable medium.new) }
{
    let mut buf = [0; TURN];
    let mut first = None;
    let mut i = 0;
    while i < text.len() {
        let n = TURN.min(text.len() - i);
        let part = &mut buf[..n];
        match read_front(medium, at + i as u64, part) {
            Err(Failed) => return Err(FieldFault::ReadFault),
            Ok(got) if got < n => return Err(FieldFault::Truncated { at }),
            Ok(_) => first = compared(first, text, i, part),
        }
        i += n;
    }
    Ok(first)
}

// The first difference so far, after the bytes that were found where the text goes on.
fn compared(
    before: Option<(usize, u8)>,
    text: &[u8],
    from: usize,
    found: &[u8],
) -> Option<(usize, u8)>
    requires { from + length found.now ≤ length text.now }
    ensures each { (file : List ℕ) (at : ℕ) → IsCompared file at from text.now before → IsFront file (at + from) (length found.now) found.now → IsCompared file at (from + length found.now) text.now result }
    ensures differs { IfSome before (λ d. IsOther text.now d.0 d.1) → IfSome result (λ d. IsOther text.now d.0 d.1) }
{
    let mut first = before;
    for k in 0..found.len() {
        first = noted(first, text, from + k, found[k]);
    }
    first
}

// The first difference so far, after one byte more.
fn noted(first: Option<(usize, u8)>, text: &[u8], i: usize, found: u8) -> Option<(usize, u8)>
    requires { i < length text.now }
    ensures { result ≡ note text.now i found first }
{
    if first.is_none() && found != text[i] {
        return Some((i, found));
    }
    first
}

// Reads into the buffer until it is full or the file ends, and answers how many bytes it has then.
#[tactic(auto, using(medium::proofs::Leaves::leaves_same, medium::proofs::Leaves::leaves_on, crate::proofs::Fronts::front_none))]
fn read_front<M: Readable>(medium: &mut M, at: u64, buf: &mut [u8]) -> Result<usize, Failed>
    requires { at + length buf.old ≤ 2 ^ 40 }
    ensures within { IfOk result (λ n. n ≤ length buf.new) }
    ensures front { IfOk result (λ n. IfSome (M.told medium.old) (λ file. IsFront file at n buf.new)) }
    ensures end { IfOk result (λ n. n < length buf.new → IfSome (M.told medium.old) (λ file. EndsIn file at (length buf.new))) }
    ensures cause { HasCause (M.faults medium.old) (M.faults medium.new) result }
    ensures leaves { Leaves (file_state M.Readable medium.old) (file_state M.Readable medium.new) }
{
    let mut got = 0;
    while got < buf.len() {
        let n = read_on(medium, at, buf, got)?;
        if n == got {
            break;
        }
        got = n;
    }
    Ok(got)
}

// Reads on behind the bytes that the buffer has, and answers how many it has then: no more only at the end.
fn read_on<M: Readable>(
    medium: &mut M,
    at: u64,
    buf: &mut [u8],
    got: usize,
) -> Result<usize, Failed>
    requires limit { at + length buf.old ≤ 2 ^ 40 }
    requires more { got < length buf.old }
    requires front { IfSome (M.told medium.old) (λ file. IsFront file at got buf.old) }
    ensures within { IfOk result (λ n. n ≤ length buf.new) }
    ensures no_less { IfOk result (λ n. got ≤ n) }
    ensures front { IfOk result (λ n. IfSome (M.told medium.old) (λ file. IsFront file at n buf.new)) }
    ensures end { IfOk result (λ n. n ≡ got → IfSome (M.told medium.old) (λ file. EndsIn file at (length buf.new))) }
    ensures cause { HasCause (M.faults medium.old) (M.faults medium.new) result }
    ensures leaves { Leaves (file_state M.Readable medium.old) (file_state M.Readable medium.new) }
{
    let n = medium.read_at(at + got as u64, &mut buf[got..])?;
    Ok(got + n)
}
