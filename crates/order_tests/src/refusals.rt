use crate::files::{fault_from, fault_of};
use order_log::{OrderFault, OrderRefusal};
use std::alloc::{AllocError, Global};
use std::test::Fail;

/// The text of the order 0 1 1 of two vCPUs.
const TEXT: [u8; 22] = [
    0x52, 0x56, 0x4f, 0x52, 0, 0, 0, 1, 0, 0, 0, 2, 0, 0, 0, 0, 0, 0, 0, 3, 0x10, 0x01,
];

/// The bytes that are read of the text, and where the piece begins in which they end.
const CUTS: [(usize, u64); 11] = [
    (0, 0),
    (1, 0),
    (3, 0),
    (4, 4),
    (7, 4),
    (8, 8),
    (11, 8),
    (12, 12),
    (19, 12),
    (20, 20),
    (21, 20),
];

/// A place of the text, other bytes for it, and the refusal.
#[rattlefmt::skip]
static WRONG: [(usize, &[u8], OrderRefusal); 19] = [
    (0, &[0x53], OrderRefusal::Magic(0x5356_4f52)),
    (3, &[0x51], OrderRefusal::Magic(0x5256_4f51)),
    (0, b"QEVM\0\0\0\x03", OrderRefusal::Magic(0x5145_564d)),
    (7, &[0], OrderRefusal::Version(0)),
    (7, &[2], OrderRefusal::Version(2)),
    (4, &[1], OrderRefusal::Version(0x0100_0001)),
    (11, &[1], OrderRefusal::Vcpus(1)),
    (11, &[3], OrderRefusal::Vcpus(3)),
    (8, &[1], OrderRefusal::Vcpus(0x0100_0002)),
    (12, &[0, 0, 0, 0, 0, 0xf4, 0x24, 0x01], OrderRefusal::Count(16_000_001)),
    (12, &[0, 0, 0, 0, 0, 0xf4, 0x24, 0x00], OrderRefusal::Truncated { at: 20 }),
    (12, &[0xff; 8], OrderRefusal::Count(0xffff_ffff_ffff_ffff)),
    (20, &[0x12], OrderRefusal::Member { at: 20, v: 2 }),
    (20, &[0xf0], OrderRefusal::Member { at: 20, v: 15 }),
    (20, &[0x23, 0x14], OrderRefusal::Member { at: 20, v: 3 }),
    (21, &[0x12], OrderRefusal::Member { at: 21, v: 2 }),
    (21, &[0x11], OrderRefusal::Pad(1)),
    (21, &[0xf1], OrderRefusal::Pad(15)),
    (12, &[0, 0, 0, 0, 0, 0, 0, 2], OrderRefusal::Trailing { at: 21 }),
];

/// The text with other bytes from a place on.
fn changed(alloc: Global, at: usize, bytes: &[u8]) -> Result<Vec<u8>, AllocError> {
    let mut text = TEXT.to_vec(alloc)?;
    for (place, byte) in text.iter_mut().skip(at).zip(bytes) {
        *place = *byte;
    }
    Ok(text)
}

/// Whether these bytes are refused so.
fn is_refused(alloc: Global, bytes: &[u8], refusal: OrderRefusal) -> Result<bool, Fail> {
    Ok(fault_of(alloc, bytes)? == Some(OrderFault::Refused(refusal)))
}

#[test]
fn a_cut_text_is_refused_at_the_piece_that_is_cut(rt: HostRuntime) -> Result<(), Fail> {
    let alloc = rt.alloc();
    for (len, at) in CUTS {
        let front = TEXT.get(..len).unwrap_or(&TEXT);
        let refused = is_refused(alloc, front, OrderRefusal::Truncated { at })?;
        assert!(rt; refused, "{len} bytes");
    }
    Ok(())
}

#[test]
fn the_first_wrong_piece_refuses_a_text(rt: HostRuntime) -> Result<(), Fail> {
    let alloc = rt.alloc();
    for (at, bytes, refusal) in &WRONG {
        let text = changed(alloc, *at, bytes)?;
        let refused = is_refused(alloc, &text, *refusal)?;
        assert!(rt; refused, "{bytes:?} at {at}");
    }
    Ok(())
}

#[test]
fn a_byte_behind_the_members_refuses_a_text(rt: HostRuntime) -> Result<(), Fail> {
    let alloc = rt.alloc();
    let mut text = TEXT.to_vec(alloc)?;
    text.push(0)?;
    let refused = is_refused(alloc, &text, OrderRefusal::Trailing { at: 22 })?;
    assert!(rt; refused);
    Ok(())
}

#[test]
fn a_call_that_fails_is_no_refusal(rt: HostRuntime) -> Result<(), Fail> {
    let alloc = rt.alloc();
    for call in 1..=6 {
        let fault = fault_from(alloc, &TEXT, call)?;
        assert!(rt; fault == Some(OrderFault::ReadFault), "call {call}");
    }
    let fault = fault_from(alloc, &TEXT, 7)?;
    assert!(rt; fault.is_none());
    Ok(())
}
