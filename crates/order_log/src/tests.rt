use super::*;
use flat_machine::Order;
use medium::{FailPlan, MemMedium};
use std::alloc::Global;
use std::test::Fail;

// The text of the order 0 1 1 of a machine of two vCPUs.
const TEXT: [u8; 22] = [
    0x52, 0x56, 0x4f, 0x52, 0, 0, 0, 1, 0, 0, 0, 2, 0, 0, 0, 0, 0, 0, 0, 3, 0x10, 0x01,
];

// Why these bytes, of which every call from this number on fails, are the text of no order of two vCPUs.
fn fault_of(alloc: Global, bytes: &[u8], from: u64) -> Result<Option<OrderFault>, Fail> {
    let plan = FailPlan {
        calls: Vec::new(alloc),
        from: Some(from),
    };
    let room = bytes.len() as u64;
    let mut file = MemMedium::new(alloc, bytes.to_vec(alloc)?, room, 0, plan)?;
    Ok(get_order(alloc, &mut file, 2).err())
}

#[test]
fn an_order_has_its_text(rt: HostRuntime) -> Result<(), Fail> {
    let alloc = rt.alloc();
    let mut order = Order::with_room(alloc, 3)?;
    order.push(0);
    order.push(1);
    order.push(1);
    let text = put_order(alloc, &order, 2)?;
    assert!(rt; text.as_slice() == TEXT.as_slice());
    Ok(())
}

#[test]
fn a_text_is_read_and_a_failing_call_is_no_refusal(rt: HostRuntime) -> Result<(), Fail> {
    let alloc = rt.alloc();
    let all_well = fault_of(alloc, &TEXT, 100)?;
    assert!(rt; all_well.is_none());
    let failed = fault_of(alloc, &TEXT, 1)?;
    assert!(rt; failed == Some(OrderFault::ReadFault));
    let cut = fault_of(alloc, &TEXT[..21], 100)?;
    assert!(rt; cut == Some(OrderFault::Refused(OrderRefusal::Truncated { at: 20 })));
    Ok(())
}
