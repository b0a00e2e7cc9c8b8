ghost use Rattle.std.specs.Prelude.{◌≡◌, ◌≢◌, ◌≤◌, ◌+◌, ◌^◌, ℕ, List, Some, Err, IfOk, OnOk, length};
ghost use Rattle.medium.specs.Count.{HasRisen};
ghost use Rattle.medium.specs.Members.{file_state};
ghost use Rattle.medium.specs.States.{Leaves};
ghost use Rattle.ram_block.specs.declared.limits.TheConstants.{MAX_RAM};
ghost use Rattle.ram_block.specs.declared.page_buf.TheConstants.{PAGE};
ghost use Rattle.loader.specs.Frame.{stream_in, total_in, total_of};
ghost use Rattle.loader.specs.Piece.{Answers};
ghost use Rattle.loader.specs.Stands.{HasStream, HasTotal};
ghost use Rattle.loader.specs.declared.refusal.LoadFault.TheVariants.{ReadFault};

use crate::piece::{Text, expect, read_number32, read_number64};
use crate::{LoadFault, Refusal};
use file_plan::{MAGIC, RAM_VERSION, STREAM_VERSION, TOTAL_FLAG, configuration, ram_head};
use medium::Readable;
use ram_block::{MAX_RAM, PAGE};

/// The magic, the version and the configuration.
#[tactic(auto, unfolding(crate::specs::Frame::stream_in))]
pub(crate) fn read_stream<M: Readable>(medium: &mut M) -> Result<(), LoadFault>
    ensures answer { (file : List ℕ) → M.told medium.old ≡ Some file → Answers (stream_in file) result }
    ensures stands { (file : List ℕ) → M.told medium.old ≡ Some file → OnOk result (HasStream file) }
    ensures read_fault { result ≡ Err ReadFault → HasRisen (M.faults medium.old) (M.faults medium.new) }
    ensures leaves { Leaves (file_state M.Readable medium.old) (file_state M.Readable medium.new) }
{
    let magic = read_number32(medium, 0)?;
    if magic != MAGIC {
        return Err(LoadFault::Refused(Refusal::Magic(magic)));
    }
    let version = read_number32(medium, 4)?;
    if version != STREAM_VERSION {
        return Err(LoadFault::Refused(Refusal::StreamVersion(version)));
    }
    expect(medium, Text::Configuration, 8, &configuration())
}

/// The first header of the section of RAM, and the bytes of RAM of the machine.
#[tactic(auto, unfolding(crate::specs::Frame::total_in))]
pub(crate) fn read_total<M: Readable>(medium: &mut M) -> Result<u64, LoadFault>
    ensures answer { (file : List ℕ) → M.told medium.old ≡ Some file → Answers (total_in file) result }
    ensures stands { (file : List ℕ) → M.told medium.old ≡ Some file → IfOk result (λ bytes. HasTotal file bytes) }
    ensures limits { IfOk result (λ bytes. (PAGE ≤ bytes) × (bytes ≤ MAX_RAM)) }
    ensures read_fault { result ≡ Err ReadFault → HasRisen (M.faults medium.old) (M.faults medium.new) }
    ensures leaves { Leaves (file_state M.Readable medium.old) (file_state M.Readable medium.new) }
{
    expect(medium, Text::SectionHeader, 22, &ram_head()[..13])?;
    let version = read_number32(medium, 35)?;
    if version != RAM_VERSION {
        return Err(LoadFault::Refused(Refusal::RamVersion(version)));
    }
    let v = read_number64(medium, 39)?;
    without_flag(v)
}

// The total without its flag, of the number that stands in the file.
fn without_flag(v: u64) -> Result<u64, LoadFault>
    ensures answer { Answers (total_of 39 v) result }
    ensures sum { IfOk result (λ bytes. v ≡ bytes + TOTAL_FLAG) }
    ensures limits { IfOk result (λ bytes. (PAGE ≤ bytes) × (bytes ≤ MAX_RAM)) }
    ensures no_read { result ≢ Err ReadFault }
{
    if v % 4096 != TOTAL_FLAG {
        return Err(LoadFault::Refused(Refusal::Flags { at: 39, v }));
    }
    let bytes = v - TOTAL_FLAG;
    if bytes < PAGE as u64 || bytes > MAX_RAM {
        return Err(LoadFault::Refused(Refusal::Total(v)));
    }
    Ok(bytes)
}
