ghost use Rattle.std.specs.Prelude.{◌≡◌, ◌<◌, ◌≤◌, ◌++◌, IfOk, OnOk, All, length, slice_index};
ghost use Rattle.ram_block.specs.Shape.{IsWithin};
ghost use Rattle.ram_block.specs.declared.shape.TheConstants.{MAX_VCPUS};
ghost use Rattle.order_log.specs.Text.{IsOrder, head_text, packed, text_of};
ghost use Rattle.order_log.specs.declared.format.TheConstants.{MAX_EVENTS};

use crate::members::member;
use crate::{HEAD_LEN, MAGIC, VERSION};
use flat_machine::Order;
use mig_stream::{put_be32, put_be64};
use ram_block::NoMemory;
use std::alloc::Global;

/// The text of an order of a machine with so many vCPUs: `get_order` reads it back.
#[tactic(auto, unfolding(crate::specs::Text::text_of))]
pub fn put_order(alloc: Global, order: &Order, vcpus: u32) -> Result<Vec<u8>, NoMemory>
    requires vcpus { IsWithin vcpus MAX_VCPUS }
    requires order { IsOrder vcpus order.now.members }
    ensures { IfOk result (λ text. text.items ≡ text_of order.now.members vcpus) }
{
    let count = order.count();
    let mut out = Vec::with_capacity(alloc, HEAD_LEN as usize + count.div_ceil(2))?;
    put_head(&mut out, vcpus, count as u64)?;
    put_members(&mut out, order)?;
    Ok(out)
}

// What stands before the members.
fn put_head(out: &mut Vec<u8>, vcpus: u32, count: u64) -> Result<(), NoMemory>
    ensures { OnOk result (out.new.items ≡ out.old.items ++ head_text vcpus count) }
{
    put_be32(out, MAGIC)?;
    put_be32(out, VERSION)?;
    put_be32(out, vcpus)?;
    put_be64(out, count)
}

// The members, two a byte.
fn put_members(out: &mut Vec<u8>, order: &Order) -> Result<(), NoMemory>
    requires most { length order.now.members ≤ MAX_EVENTS }
    requires members { All (λ k. k < MAX_VCPUS) order.now.members }
    ensures { OnOk result (out.new.items ≡ out.old.items ++ packed order.now.members) }
{
    for i in 0..order.count().div_ceil(2) {
        out.push(byte_of(order, i))?;
    }
    Ok(())
}

// The byte of two members, or of an odd last one.
#[tactic(auto, using(crate::proofs::Packed::packed_at))]
fn byte_of(order: &Order, i: usize) -> u8
    requires most { i < MAX_EVENTS }
    requires members { All (λ k. k < MAX_VCPUS) order.now.members }
    ensures { result ≡ slice_index (packed order.now.members) i }
{
    member(order, 2 * i) + 16 * member(order, 2 * i + 1)
}
