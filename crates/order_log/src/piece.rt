ghost use Rattle.std.specs.Prelude.{◌≡◌, ◌≢◌, ◌≤◌, ◌^◌, ℕ, List, Some, Err, IfOk, OnOk, length, vec_len};
ghost use Rattle.medium.specs.Count.{HasRisen};
ghost use Rattle.medium.specs.Members.{file_state};
ghost use Rattle.medium.specs.States.{Leaves};
ghost use Rattle.mig_stream.specs.Pieces.{Has};
ghost use Rattle.mig_stream.specs.Text.{be32, be64};
ghost use Rattle.mig_stream.specs.Checks.{number32_in, number64_in};
ghost use Rattle.order_log.specs.Reading.{Answers, AnswersAs, byte_len, bytes_in, end_in};
ghost use Rattle.order_log.specs.declared.fault.OrderFault.TheVariants.{ReadFault, Refused};
ghost use Rattle.order_log.specs.declared.fault.OrderRefusal.TheVariants.{Halted, Truncated};
ghost use Rattle.order_log.specs.declared.format.TheConstants.{HEAD_LEN, MAX_EVENTS};

use crate::{HEAD_LEN, OrderFault, OrderRefusal};
use medium::Readable;
use mig_stream::{FieldReader, get_be32, get_be64};
use std::alloc::Global;

/// The number in the four bytes from a place on.
pub(crate) fn read_number32<M: Readable>(medium: &mut M, at: u64) -> Result<u32, OrderFault>
    requires { at ≤ 2 ^ 32 }
    ensures answer { (file : List ℕ) → M.told medium.old ≡ Some file → Answers (number32_in Truncated file at) result }
    ensures stands { (file : List ℕ) → M.told medium.old ≡ Some file → IfOk result (λ v. Has file at (be32 v)) }
    ensures never_halted { (place : ℕ) → result ≢ Err (Refused (Halted place)) }
    ensures read_fault { result ≡ Err ReadFault → HasRisen (M.faults medium.old) (M.faults medium.new) }
    ensures leaves { Leaves (file_state M.Readable medium.old) (file_state M.Readable medium.new) }
{
    let mut bytes = [0; 4];
    FieldReader::new(medium, at).take(&mut bytes)?;
    Ok(get_be32(&bytes))
}

/// The number in the eight bytes from a place on.
pub(crate) fn read_number64<M: Readable>(medium: &mut M, at: u64) -> Result<u64, OrderFault>
    requires { at ≤ 2 ^ 32 }
    ensures answer { (file : List ℕ) → M.told medium.old ≡ Some file → Answers (number64_in Truncated file at) result }
    ensures stands { (file : List ℕ) → M.told medium.old ≡ Some file → IfOk result (λ v. Has file at (be64 v)) }
    ensures never_halted { (place : ℕ) → result ≢ Err (Refused (Halted place)) }
    ensures read_fault { result ≡ Err ReadFault → HasRisen (M.faults medium.old) (M.faults medium.new) }
    ensures leaves { Leaves (file_state M.Readable medium.old) (file_state M.Readable medium.new) }
{
    let mut bytes = [0; 8];
    FieldReader::new(medium, at).take(&mut bytes)?;
    Ok(get_be64(&bytes))
}

/// The bytes of so many members.
pub(crate) fn read_bytes<M: Readable>(
    alloc: Global,
    medium: &mut M,
    count: u64,
) -> Result<Vec<u8>, OrderFault>
    requires { count ≤ MAX_EVENTS }
    ensures answer { (file : List ℕ) → M.told medium.old ≡ Some file → AnswersAs (λ bytes. bytes.items) (bytes_in file count) result }
    ensures stands { (file : List ℕ) → M.told medium.old ≡ Some file → IfOk result (λ bytes. Has file HEAD_LEN bytes.items) }
    ensures len { IfOk result (λ bytes. vec_len bytes ≡ byte_len count) }
    ensures never_halted { (place : ℕ) → result ≢ Err (Refused (Halted place)) }
    ensures read_fault { result ≡ Err ReadFault → HasRisen (M.faults medium.old) (M.faults medium.new) }
    ensures leaves { Leaves (file_state M.Readable medium.old) (file_state M.Readable medium.new) }
{
    let mut bytes = vec![in alloc; 0; count.div_ceil(2) as usize]?;
    FieldReader::new(medium, HEAD_LEN).take(&mut bytes)?;
    Ok(bytes)
}

/// Whether the file ends by this place.
pub(crate) fn expect_end<M: Readable>(medium: &mut M, end: u64) -> Result<(), OrderFault>
    ensures answer { (file : List ℕ) → M.told medium.old ≡ Some file → Answers (end_in file end) result }
    ensures within { (file : List ℕ) → M.told medium.old ≡ Some file → OnOk result (length file ≤ end) }
    ensures never_halted { (place : ℕ) → result ≢ Err (Refused (Halted place)) }
    ensures read_fault { result ≡ Err ReadFault → HasRisen (M.faults medium.old) (M.faults medium.new) }
    ensures leaves { Leaves (file_state M.Readable medium.old) (file_state M.Readable medium.new) }
{
    if medium.len()? > end {
        return Err(OrderFault::Refused(OrderRefusal::Trailing { at: end }));
    }
    Ok(())
}
