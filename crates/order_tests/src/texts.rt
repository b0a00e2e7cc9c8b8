use crate::files::order_of;
use order_log::put_order;
use std::alloc::Global;
use std::test::Fail;

/// So many vCPUs, the members of an order, and its text.
#[rattlefmt::skip]
static TEXTS: [(u32, &[u8], &[u8]); 8] = [
    (1, &[], &[0x52, 0x56, 0x4f, 0x52, 0, 0, 0, 1, 0, 0, 0, 1, 0, 0, 0, 0, 0, 0, 0, 0]),
    (1, &[0, 0, 0], &[0x52, 0x56, 0x4f, 0x52, 0, 0, 0, 1, 0, 0, 0, 1, 0, 0, 0, 0, 0, 0, 0, 3, 0, 0]),
    (2, &[0, 0, 1, 1, 0, 1], &[0x52, 0x56, 0x4f, 0x52, 0, 0, 0, 1, 0, 0, 0, 2, 0, 0, 0, 0, 0, 0, 0, 6, 0x00, 0x11, 0x10]),
    (2, &[1], &[0x52, 0x56, 0x4f, 0x52, 0, 0, 0, 1, 0, 0, 0, 2, 0, 0, 0, 0, 0, 0, 0, 1, 0x01]),
    (2, &[1, 0], &[0x52, 0x56, 0x4f, 0x52, 0, 0, 0, 1, 0, 0, 0, 2, 0, 0, 0, 0, 0, 0, 0, 2, 0x01]),
    (8, &[0, 7], &[0x52, 0x56, 0x4f, 0x52, 0, 0, 0, 1, 0, 0, 0, 8, 0, 0, 0, 0, 0, 0, 0, 2, 0x70]),
    (8, &[1, 2, 3], &[0x52, 0x56, 0x4f, 0x52, 0, 0, 0, 1, 0, 0, 0, 8, 0, 0, 0, 0, 0, 0, 0, 3, 0x21, 0x03]),
    (8, &[7, 6, 5, 4, 3, 2, 1, 0], &[0x52, 0x56, 0x4f, 0x52, 0, 0, 0, 1, 0, 0, 0, 8, 0, 0, 0, 0, 0, 0, 0, 8, 0x67, 0x45, 0x23, 0x01]),
];

/// Whether the text is read as these members, and these are written as the text.
fn is_text_of(alloc: Global, vcpus: u32, members: &[u8], text: &[u8]) -> Result<bool, Fail> {
    if !(1..=8).contains(&vcpus) {
        return Ok(false);
    }
    let order = order_of(alloc, text, vcpus)?;
    let written = put_order(alloc, &order, vcpus)?;
    let same_count = order.count() == members.len();
    let same_members = members
        .iter()
        .enumerate()
        .all(|(i, k)| order.get(i) == Some(*k));
    Ok(same_count && same_members && written.as_slice() == text)
}

#[test]
fn two_members_are_a_byte_and_the_earlier_is_in_its_low_bits(rt: HostRuntime) -> Result<(), Fail> {
    let alloc = rt.alloc();
    for (vcpus, members, text) in &TEXTS {
        let is_text = is_text_of(alloc, *vcpus, members, text)?;
        assert!(rt; is_text, "{members:?}");
    }
    Ok(())
}
