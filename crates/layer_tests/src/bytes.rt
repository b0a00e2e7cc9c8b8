use std::alloc::{AllocError, Global};

/// How many bytes the layer has.
const LEN: usize = 8897;

/// What the layer has, by place; each byte between is 0. Two of a block's three pages are in it, then two vCPUs, of which the
/// second is halted at ebreak, two serial bytes and three bytes of input, and the timer.
#[rattlefmt::skip]
static PIECES: [(usize, &[u8]); 17] = [
    (0, b"RVLY\0\0\0\x01\0\0\0\x01\0\0\0\x03\0\0\0\0\0\0\0\x02"),
    (24, &[0xfe, 0xb6, 0x0b, 0x5d, 0xfe, 0xb5, 0xee, 0xdd, 0, 0, 0, 2, 0, 0, 0, 1]),
    (40, b"the second page"),
    (4136, &[0, 0, 0, 2]),
    (4140, b"the third page"),
    (8236, b"\x04\0\0\0\x03\x03cpu\0\0\0\0\0\0\0\x01"),
    (8253, &[0xff; 8]),
    (8501, &[0, 0, 0, 0, 0x80]),
    (8518, b"\x7e\0\0\0\x03"),
    (8523, b"\x04\0\0\0\x04\x03cpu\0\0\0\x01\0\0\0\x01"),
    (8780, &[0xfe, 0xdc, 0xba, 0x98, 0x76, 0x54, 0x32, 0x10]),
    (8788, &[0, 0, 0, 0, 0x80, 0, 0, 0x08, 0, 0, 0, 0, 0, 0, 0, 1, 10]),
    (8805, b"\x7e\0\0\0\x04\x04\0\0\0\x05\x06serial\0\0\0\0\0\0\0\x02"),
    (8830, b"\0\0\0\0\0\0\x01\x09\0\0\0\x02\0\0\0\x03hiyes\x7e\0\0\0\x05"),
    (8856, b"\x04\0\0\0\x06\x05timer\0\0\0\0\0\0\0\x01"),
    (8889, &[1]),
    (8891, b"\x7e\0\0\0\x06\0"),
];

/// A layer by hand over the machine of two vCPUs and of one block of three pages whose vCPUs have each run an instruction.
pub(crate) fn layer(alloc: Global) -> Result<Vec<u8>, AllocError> {
    let mut layer = vec![in alloc; 0u8; LEN]?;
    for (at, bytes) in &PIECES {
        put(&mut layer, *at, bytes);
    }
    Ok(layer)
}

// Puts bytes over those of a layer, from a place on.
fn put(layer: &mut [u8], at: usize, bytes: &[u8]) {
    for (place, byte) in layer.iter_mut().skip(at).zip(bytes) {
        *place = *byte;
    }
}

/// The layer where so many bytes from a place on are all this one.
pub(crate) fn filled(
    alloc: Global,
    at: usize,
    len: usize,
    byte: u8,
) -> Result<Vec<u8>, AllocError> {
    let mut layer = layer(alloc)?;
    for place in layer.iter_mut().skip(at).take(len) {
        *place = byte;
    }
    Ok(layer)
}

/// The layer with other bytes between two places, fewer or more.
pub(crate) fn replaced(
    alloc: Global,
    from: usize,
    to: usize,
    bytes: &[u8],
) -> Result<Vec<u8>, AllocError> {
    let whole = layer(alloc)?;
    let mut layer = whole.get(..from).unwrap_or(&[]).to_vec(alloc)?;
    layer.extend_from_slice(bytes)?;
    layer.extend_from_slice(whole.get(to..).unwrap_or(&[]))?;
    Ok(layer)
}
