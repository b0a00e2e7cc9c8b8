ghost use Rattle.std.specs.Prelude.{◌≡◌, ◌≤◌, ◌+◌, ◌^◌, ℕ, List, Some, Err, IfOk, OnOk, length, take, drop};
ghost use Rattle.medium.specs.Count.{HasRisen};
ghost use Rattle.medium.specs.Members.{file_state};
ghost use Rattle.medium.specs.States.{Leaves};
ghost use Rattle.mig_stream.specs.Checks.{number32_in, number64_in};
ghost use Rattle.mig_stream.specs.Text.{be32, be64};
ghost use Rattle.file_plan.specs.Layout.{StandsAt};
ghost use Rattle.loader.specs.Piece.{Answers, cut_fault, expected, refusal_of};
ghost use Rattle.loader.specs.declared.refusal.LoadFault.TheVariants.{ReadFault, Refused};
ghost use Rattle.loader.specs.declared.refusal.Refusal.TheVariants.{Truncated};

use crate::{LoadFault, Refusal};
use medium::Readable;
use mig_stream::{FieldFault, FieldReader, TextFault, get_be32, get_be64};

/// A text that stands in each file, by the refusal of another one.
#[derive(Clone, Copy, Debug, PartialEq, Eq)]
pub enum Text {
    Configuration,
    SectionHeader,
    BlockName(u32),
    SectionFooter,
}

/// The number in the four bytes from a place on.
pub(crate) fn read_number32<M: Readable>(medium: &mut M, at: u64) -> Result<u32, LoadFault>
    requires { at ≤ 2 ^ 32 }
    ensures answer { (file : List ℕ) → M.told medium.old ≡ Some file → Answers (number32_in Truncated file at) result }
    ensures stands { (file : List ℕ) → M.told medium.old ≡ Some file → IfOk result (λ v. StandsAt file at (be32 v)) }
    ensures read_fault { result ≡ Err ReadFault → HasRisen (M.faults medium.old) (M.faults medium.new) }
    ensures leaves { Leaves (file_state M.Readable medium.old) (file_state M.Readable medium.new) }
{
    let mut bytes = [0; 4];
    match FieldReader::new(medium, at).take(&mut bytes) {
        Ok(()) => Ok(get_be32(&bytes)),
        Err(fault) => Err(cut(fault)),
    }
}

/// The number in the eight bytes from a place on.
pub(crate) fn read_number64<M: Readable>(medium: &mut M, at: u64) -> Result<u64, LoadFault>
    requires { at ≤ 2 ^ 32 }
    ensures answer { (file : List ℕ) → M.told medium.old ≡ Some file → Answers (number64_in Truncated file at) result }
    ensures stands { (file : List ℕ) → M.told medium.old ≡ Some file → IfOk result (λ v. StandsAt file at (be64 v)) }
    ensures read_fault { result ≡ Err ReadFault → HasRisen (M.faults medium.old) (M.faults medium.new) }
    ensures leaves { Leaves (file_state M.Readable medium.old) (file_state M.Readable medium.new) }
{
    let mut bytes = [0; 8];
    match FieldReader::new(medium, at).take(&mut bytes) {
        Ok(()) => Ok(get_be64(&bytes)),
        Err(fault) => Err(cut(fault)),
    }
}

/// Whether the piece at a place is this text.
#[tactic(auto, using(crate::proofs::Texts::stands))]
pub(crate) fn expect<M: Readable>(
    medium: &mut M,
    kind: Text,
    at: u64,
    text: &[u8],
) -> Result<(), LoadFault>
    requires { at + length text.now ≤ 2 ^ 33 }
    ensures answer { (file : List ℕ) → M.told medium.old ≡ Some file → Answers (expected kind file at text.now) result }
    ensures stands { (file : List ℕ) → M.told medium.old ≡ Some file → OnOk result (StandsAt file at text.now) }
    ensures read_fault { result ≡ Err ReadFault → HasRisen (M.faults medium.old) (M.faults medium.new) }
    ensures leaves { Leaves (file_state M.Readable medium.old) (file_state M.Readable medium.new) }
{
    match FieldReader::new(medium, at).expect(text) {
        Ok(()) => Ok(()),
        Err(TextFault::Field(fault)) => Err(cut(fault)),
        Err(TextFault::Differs { at, found }) => Err(differs(kind, at, found)),
    }
}

/// The fault of a piece that isn't there.
pub(crate) fn cut(fault: FieldFault) -> LoadFault
    ensures { result ≡ cut_fault fault }
{
    match fault {
        FieldFault::Truncated { at } => LoadFault::Refused(Refusal::Truncated { at }),
        FieldFault::ReadFault => LoadFault::ReadFault,
    }
}

// The fault of a text that is another.
fn differs(kind: Text, at: u64, found: u8) -> LoadFault
    ensures { result ≡ Refused (refusal_of kind at found) }
{
    LoadFault::Refused(match kind {
        Text::Configuration => Refusal::Config { at, found },
        Text::SectionHeader => Refusal::Section { at, found },
        Text::BlockName(block) => Refusal::Name { block, at, found },
        Text::SectionFooter => Refusal::Footer { at, found },
    })
}
