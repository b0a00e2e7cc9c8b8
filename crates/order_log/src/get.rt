ghost use Rattle.std.specs.Prelude.{◌≡◌, ◌≢◌, ◌≤◌, ◌++◌, ℕ, List, Some, Ok, Err, IfOk, IfSome, OnOk};
ghost use Rattle.medium.specs.Count.{HasRisen};
ghost use Rattle.medium.specs.Members.{file_state};
ghost use Rattle.medium.specs.States.{Leaves};
ghost use Rattle.mig_stream.specs.Pieces.{Has};
ghost use Rattle.mig_stream.specs.Text.{be32, be64};
ghost use Rattle.ram_block.specs.Shape.{IsWithin};
ghost use Rattle.ram_block.specs.declared.shape.TheConstants.{MAX_VCPUS};
ghost use Rattle.order_log.specs.Reading.{Answers, AnswersOrder, count_in, format_in, order_in};
ghost use Rattle.order_log.specs.Text.{IsOrder, text_of};
ghost use Rattle.order_log.specs.declared.fault.OrderFault.TheVariants.{ReadFault, Refused};
ghost use Rattle.order_log.specs.declared.fault.OrderRefusal.TheVariants.{Halted};
ghost use Rattle.order_log.specs.declared.format.TheConstants.{MAGIC, MAX_EVENTS, VERSION};

use crate::members::order_of;
use crate::piece::{expect_end, read_bytes, read_number32, read_number64};
use crate::{HEAD_LEN, MAGIC, MAX_EVENTS, OrderFault, OrderRefusal, VERSION};
use flat_machine::Order;
use medium::{Medium, Readable};
use std::alloc::Global;

/// The order of which a file is the text, or the first piece of the file that is wrong.
pub fn get_order<M: Medium>(alloc: Global, medium: &mut M, vcpus: u32) -> Result<Order, OrderFault>
    requires vcpus { IsWithin vcpus MAX_VCPUS }
    ensures answer { IfSome (M.Readable.told medium.old) (λ file. AnswersOrder (order_in file vcpus) result) }
    ensures text { IfSome (M.Readable.told medium.old) (λ file. IfOk result (λ o. file ≡ text_of o.members vcpus)) }
    ensures read_back { (o : List ℕ) → IsOrder vcpus o → M.Readable.told medium.old ≡ Some (text_of o vcpus) → AnswersOrder (Ok o) result }
    ensures order { IfOk result (λ o. IsOrder vcpus o.members) }
    ensures never_halted { (place : ℕ) → result ≢ Err (Refused (Halted place)) }
    ensures read_fault { result ≡ Err ReadFault → HasRisen (M.Readable.faults medium.old) (M.Readable.faults medium.new) }
    ensures leaves { Leaves (file_state M.Readable medium.old) (file_state M.Readable medium.new) }
{
    read_order(alloc, medium, vcpus)
}

// The same, of any file that can be read.
#[tactic(auto, unfolding(crate::specs::Reading::order_in))]
fn read_order<M: Readable>(alloc: Global, medium: &mut M, vcpus: u32) -> Result<Order, OrderFault>
    requires { vcpus ≤ MAX_VCPUS }
    ensures answer { (file : List ℕ) → M.told medium.old ≡ Some file → AnswersOrder (order_in file vcpus) result }
    ensures text { (file : List ℕ) → M.told medium.old ≡ Some file → IfOk result (λ o. file ≡ text_of o.members vcpus) }
    ensures order { IfOk result (λ o. IsOrder vcpus o.members) }
    ensures never_halted { (place : ℕ) → result ≢ Err (Refused (Halted place)) }
    ensures read_fault { result ≡ Err ReadFault → HasRisen (M.faults medium.old) (M.faults medium.new) }
    ensures leaves { Leaves (file_state M.Readable medium.old) (file_state M.Readable medium.new) }
{
    read_format(medium)?;
    let count = read_count(medium, vcpus)?;
    let bytes = read_bytes(alloc, medium, count)?;
    let order = order_of(alloc, &bytes, count as usize, vcpus)?;
    expect_end(medium, HEAD_LEN + count.div_ceil(2))?;
    Ok(order)
}

// The magic and the version.
#[tactic(auto, unfolding(crate::specs::Reading::format_in))]
fn read_format<M: Readable>(medium: &mut M) -> Result<(), OrderFault>
    ensures answer { (file : List ℕ) → M.told medium.old ≡ Some file → Answers (format_in file) result }
    ensures stands { (file : List ℕ) → M.told medium.old ≡ Some file → OnOk result (Has file 0 (be32 MAGIC ++ be32 VERSION)) }
    ensures never_halted { (place : ℕ) → result ≢ Err (Refused (Halted place)) }
    ensures read_fault { result ≡ Err ReadFault → HasRisen (M.faults medium.old) (M.faults medium.new) }
    ensures leaves { Leaves (file_state M.Readable medium.old) (file_state M.Readable medium.new) }
{
    let magic = read_number32(medium, 0)?;
    if magic != MAGIC {
        return Err(OrderFault::Refused(OrderRefusal::Magic(magic)));
    }
    let version = read_number32(medium, 4)?;
    if version != VERSION {
        return Err(OrderFault::Refused(OrderRefusal::Version(version)));
    }
    Ok(())
}

// How many members there are.
#[tactic(auto, unfolding(crate::specs::Reading::count_in))]
fn read_count<M: Readable>(medium: &mut M, vcpus: u32) -> Result<u64, OrderFault>
    ensures answer { (file : List ℕ) → M.told medium.old ≡ Some file → Answers (count_in file vcpus) result }
    ensures stands { (file : List ℕ) → M.told medium.old ≡ Some file → IfOk result (λ count. Has file 8 (be32 vcpus ++ be64 count)) }
    ensures most { IfOk result (λ count. count ≤ MAX_EVENTS) }
    ensures never_halted { (place : ℕ) → result ≢ Err (Refused (Halted place)) }
    ensures read_fault { result ≡ Err ReadFault → HasRisen (M.faults medium.old) (M.faults medium.new) }
    ensures leaves { Leaves (file_state M.Readable medium.old) (file_state M.Readable medium.new) }
{
    let v = read_number32(medium, 8)?;
    if v != vcpus {
        return Err(OrderFault::Refused(OrderRefusal::Vcpus(v)));
    }
    let count = read_number64(medium, 12)?;
    if count > MAX_EVENTS {
        return Err(OrderFault::Refused(OrderRefusal::Count(count)));
    }
    Ok(count)
}
