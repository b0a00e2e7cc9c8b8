ghost use Rattle.std.specs.Prelude.{◌≡◌, ◌≢◌, ◌<◌, ◌≤◌, ◌*◌, ◌+◌, ◌/◌, [], Err, IfOk, OnOk, All, ℕ, length, nat_lt, slice_index, take};
ghost use Rattle.ram_block.specs.declared.shape.TheConstants.{MAX_VCPUS};
ghost use Rattle.mig_stream.specs.Checks.{check};
ghost use Rattle.order_log.specs.Reading.{AnswersOrder, byte_len, halves, members_in, members_name, pad_in};
ghost use Rattle.order_log.specs.Text.{IsOrder, packed};
ghost use Rattle.order_log.specs.declared.fault.OrderFault.TheVariants.{ReadFault, Refused};
ghost use Rattle.order_log.specs.declared.fault.OrderRefusal.TheVariants.{Halted, Member};
ghost use Rattle.order_log.specs.declared.format.TheConstants.{HEAD_LEN, MAX_EVENTS};

use crate::{HEAD_LEN, OrderFault, OrderRefusal};
use flat_machine::Order;
use std::alloc::Global;

/// The order of so many members, of which the bytes are these.
#[tactic(auto, unfolding(crate::specs::Reading::members_in))]
pub(crate) fn order_of(
    alloc: Global,
    bytes: &[u8],
    count: usize,
    vcpus: u32,
) -> Result<Order, OrderFault>
    requires bytes { length bytes.now ≡ byte_len count }
    requires most { count ≤ MAX_EVENTS }
    requires vcpus { vcpus ≤ MAX_VCPUS }
    ensures answer { AnswersOrder (members_in vcpus count bytes.now) result }
    ensures packed { IfOk result (λ o. packed o.members ≡ bytes.now) }
    ensures order { IfOk result (λ o. IsOrder vcpus o.members) }
    ensures count { IfOk result (λ o. length o.members ≡ count) }
    ensures no_read { result ≢ Err ReadFault }
    ensures never_halted { (place : ℕ) → result ≢ Err (Refused (Halted place)) }
{
    let mut order = Order::with_room(alloc, count)?;
    push_members(&mut order, bytes, count, vcpus)?;
    expect_pad(bytes, count)?;
    Ok(order)
}

/// The member at a place in the order, from 0, and 0 behind the last one.
pub(crate) fn member(order: &Order, place: usize) -> u8
    ensures value { result ≡ slice_index order.now.members place }
    ensures below { (most : ℕ) → 0 < most → All (λ k. k < most) order.now.members → result < most }
{
    order.get(place).unwrap_or(0)
}

// Puts the members into the order as far as each names a vCPU.
fn push_members(
    order: &mut Order,
    bytes: &[u8],
    count: usize,
    vcpus: u32,
) -> Result<(), OrderRefusal>
    requires empty { order.old.members ≡ [] }
    requires room { count ≤ order.old.room }
    requires bytes { count ≤ 2 * length bytes.now }
    requires most { count ≤ MAX_EVENTS }
    requires vcpus { vcpus ≤ MAX_VCPUS }
    ensures answer { result ≡ members_name vcpus 0 (take count (halves bytes.now)) }
    ensures never_halted { (place : ℕ) → result ≢ Err (Halted place) }
    ensures members { OnOk result (order.new.members ≡ take count (halves bytes.now)) }
    ensures named { OnOk result (All (λ k. k < vcpus) order.new.members) }
{
    for place in 0..count {
        let k = half(bytes, place);
        expect_member(k, place, vcpus)?;
        order.push(k);
    }
    Ok(())
}

// Whether the member at a place in the order, from 0, names a vCPU.
fn expect_member(k: u8, place: usize, vcpus: u32) -> Result<(), OrderRefusal>
    requires { place < MAX_EVENTS }
    ensures answer { result ≡ check (nat_lt k vcpus) (Member (HEAD_LEN + place / 2) k) }
    ensures never_halted { (place : ℕ) → result ≢ Err (Halted place) }
    ensures named { OnOk result (k < vcpus) }
{
    if u32::from(k) >= vcpus {
        return Err(OrderRefusal::Member {
            at: HEAD_LEN + place as u64 / 2,
            v: k,
        });
    }
    Ok(())
}

// Whether the four bits behind the last member are 0.
fn expect_pad(bytes: &[u8], count: usize) -> Result<(), OrderRefusal>
    ensures answer { result ≡ pad_in bytes.now count }
    ensures never_halted { (place : ℕ) → result ≢ Err (Halted place) }
    ensures none { OnOk result (slice_index (halves bytes.now) count ≡ 0) }
{
    let pad = half(bytes, count);
    if pad != 0 {
        return Err(OrderRefusal::Pad(pad));
    }
    Ok(())
}

// Four bits by their number, from 0: the low ones of a byte come before its high ones, and 0 behind all.
#[tactic(auto, using(crate::proofs::Halves::half_low, crate::proofs::Halves::half_high))]
fn half(bytes: &[u8], i: usize) -> u8
    ensures { result ≡ slice_index (halves bytes.now) i }
{
    let byte = bytes.get(i / 2).copied().unwrap_or(0);
    if i % 2 == 0 { byte % 16 } else { byte / 16 }
}
