ghost use Rattle.std.specs.Prelude.{◌≡◌, ◌≤◌, ◌+◌, ◌^◌, ℕ, List, Some, Err, OnOk, length};
ghost use Rattle.medium.specs.Count.{HasRisen};
ghost use Rattle.medium.specs.Members.{file_state};
ghost use Rattle.medium.specs.States.{Leaves};
ghost use Rattle.mig_stream.specs.Text.{be64};
ghost use Rattle.file_plan.specs.Layout.{StandsAt};
ghost use Rattle.file_plan.specs.declared.format.TheConstants.{END_FLAG};
ghost use Rattle.loader.specs.Frame.{end_marker_in, tail_in};
ghost use Rattle.loader.specs.Piece.{Answers};
ghost use Rattle.loader.specs.Stands.{HasTail};
ghost use Rattle.loader.specs.declared.refusal.LoadFault.TheVariants.{ReadFault};

use crate::piece::{Text, expect, read_number64};
use crate::{LoadFault, Refusal};
use file_plan::END_FLAG;
use medium::Readable;

/// The footer of the section of RAM.
const RAM_FOOTER: [u8; 5] = *b"\x7e\x00\x00\x00\x02";

/// The last header of the section of RAM.
const RAM_END: [u8; 5] = *b"\x03\x00\x00\x00\x02";

/// What stands between the pages and the device text, from a place on.
#[tactic(auto, unfolding(crate::specs::Frame::tail_in))]
pub(crate) fn read_tail<M: Readable>(medium: &mut M, at: u64) -> Result<(), LoadFault>
    requires { at ≤ 2 ^ 31 }
    ensures answer { (file : List ℕ) → M.told medium.old ≡ Some file → Answers (tail_in file at) result }
    ensures stands { (file : List ℕ) → M.told medium.old ≡ Some file → OnOk result (HasTail file at) }
    ensures read_fault { result ≡ Err ReadFault → HasRisen (M.faults medium.old) (M.faults medium.new) }
    ensures leaves { Leaves (file_state M.Readable medium.old) (file_state M.Readable medium.new) }
{
    read_end_marker(medium, at)?;
    expect(medium, Text::SectionFooter, at + 8, &RAM_FOOTER)?;
    expect(medium, Text::SectionHeader, at + 13, &RAM_END)?;
    read_end_marker(medium, at + 18)?;
    expect(medium, Text::SectionFooter, at + 26, &RAM_FOOTER)
}

// An end marker.
fn read_end_marker<M: Readable>(medium: &mut M, at: u64) -> Result<(), LoadFault>
    requires { at ≤ 2 ^ 32 }
    ensures answer { (file : List ℕ) → M.told medium.old ≡ Some file → Answers (end_marker_in file at) result }
    ensures stands { (file : List ℕ) → M.told medium.old ≡ Some file → OnOk result (StandsAt file at (be64 END_FLAG)) }
    ensures read_fault { result ≡ Err ReadFault → HasRisen (M.faults medium.old) (M.faults medium.new) }
    ensures leaves { Leaves (file_state M.Readable medium.old) (file_state M.Readable medium.new) }
{
    let v = read_number64(medium, at)?;
    if v != END_FLAG {
        return Err(LoadFault::Refused(Refusal::Flags { at, v }));
    }
    Ok(())
}
