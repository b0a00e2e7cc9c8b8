ghost use Rattle.std.specs.Prelude.{◌≡◌, ◌≤◌, ◌<◌, ◌-◌, ◌^◌, ℕ, List, Some, Err, OnOk, length, take, drop};
ghost use Rattle.medium.specs.Count.{HasRisen};
ghost use Rattle.medium.specs.Members.{file_state};
ghost use Rattle.medium.specs.States.{Leaves};
ghost use Rattle.ram_block.specs.declared.page_buf.TheConstants.{PAGE};
ghost use Rattle.page_peek.specs.declared.fault.PageFault.TheVariants.{Truncated, ReadFault};

use crate::PageFault;
use medium::Readable;
use mig_stream::{FieldFault, FieldReader};
use ram_block::PageBuf;

/// Puts the page that stands at a place into the buffer.
#[tactic(auto, using(crate::proofs::PagesOf::page_cut))]
pub(crate) fn read_page<M: Readable>(
    medium: &mut M,
    at: u64,
    into: &mut PageBuf,
) -> Result<(), PageFault>
    requires { at ≤ 2 ^ 32 }
    ensures page { (file : List ℕ) → M.told medium.old ≡ Some file → OnOk result ((into.new ≡ take PAGE (drop at file)) × (PAGE ≤ length file - at)) }
    ensures truncated { (p : ℕ) → result ≡ Err (Truncated p) → p ≡ at }
    ensures cut { (file : List ℕ) (p : ℕ) → M.told medium.old ≡ Some file → result ≡ Err (Truncated p) → length file - at < PAGE }
    ensures read_fault { result ≡ Err ReadFault → HasRisen (M.faults medium.old) (M.faults medium.new) }
    ensures leaves { Leaves (file_state M.Readable medium.old) (file_state M.Readable medium.new) }
{
    match FieldReader::new(medium, at).take(into.bytes_mut()) {
        Ok(()) => Ok(()),
        Err(FieldFault::Truncated { at }) => Err(PageFault::Truncated { at }),
        Err(FieldFault::ReadFault) => Err(PageFault::ReadFault),
    }
}
