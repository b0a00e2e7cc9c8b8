use std::alloc::{AllocError, Global};

/// Two instructions: addi x5, x0, 1 and ebreak.
pub(crate) const GUEST: [u8; 8] = [0x93, 0x02, 0x10, 0x00, 0x73, 0x00, 0x00, 0x00];

/// The bytes of the file of one page.
const FILE_LEN: usize = 1_053_072;

/// What the guest's file has, by place; each byte between is 0.
const PIECES: [(usize, &[u8]); 17] = [
    (0, &[0x51, 0x45, 0x56, 0x4d, 0, 0, 0, 3]),
    (8, &[7, 0, 0, 0, 9]),
    (13, b"rvsnap-64"),
    (
        22,
        &[1, 0, 0, 0, 2, 3, b'r', b'a', b'm', 0, 0, 0, 0, 0, 0, 0, 4],
    ),
    (39, &[0, 0, 0, 0, 0, 0, 0x10, 0x04]),
    (47, &[4, b'r', b'a', b'm', b'0', 0, 0, 0, 0, 0, 0, 0x10, 0]),
    (
        60,
        &[
            0, 0, 0, 1, 0, 0, 0, 0, 0, 0, 0x10, 0, 0, 0, 0, 0, 0, 0, 0, 0x58, 0, 0, 0, 0, 0, 0x10,
            0, 0,
        ],
    ),
    (88, &[1, 0, 0, 0, 0, 0, 0, 0]),
    (0x10_0000, &GUEST),
    (0x10_1000, &[0, 0, 0, 0, 0, 0, 0, 0x10, 0x7e, 0, 0, 0, 2]),
    (
        0x10_100d,
        &[3, 0, 0, 0, 2, 0, 0, 0, 0, 0, 0, 0, 0x10, 0x7e, 0, 0, 0, 2],
    ),
    (
        0x10_101f,
        &[4, 0, 0, 0, 3, 3, b'c', b'p', b'u', 0, 0, 0, 0, 0, 0, 0, 1],
    ),
    (
        0x10_1128,
        &[
            0, 0, 0, 0, 0x80, 0, 0, 0, 0, 0, 0, 0, 0, 0, 0, 0, 0, 0x7e, 0, 0, 0, 3,
        ],
    ),
    (
        0x10_113e,
        &[
            4, 0, 0, 0, 4, 6, b's', b'e', b'r', b'i', b'a', b'l', 0, 0, 0, 0, 0, 0, 0, 2,
        ],
    ),
    (0x10_1162, &[0x7e, 0, 0, 0, 4]),
    (
        0x10_1167,
        &[
            4, 0, 0, 0, 5, 5, b't', b'i', b'm', b'e', b'r', 0, 0, 0, 0, 0, 0, 0, 1,
        ],
    ),
    (0x10_118a, &[0x7e, 0, 0, 0, 5]),
];

/// The guest's file, byte by byte.
pub(crate) fn guest_file(alloc: Global) -> Result<Vec<u8>, AllocError> {
    let mut file = Vec::new(alloc);
    for (at, piece) in PIECES {
        for _ in file.len()..at {
            file.push(0)?;
        }
        file.extend_from_slice(piece)?;
    }
    for _ in file.len()..FILE_LEN {
        file.push(0)?;
    }
    Ok(file)
}

/// Where the section of the serial device begins in the guest's file.
pub(crate) const SERIAL_AT: usize = 0x10_113e;

/// The devices of the guest at boot, with the serial section of version 1, which knows no input.
const OLD_DEVICES: [u8; 78] = [
    4, 0, 0, 0, 4, 6, b's', b'e', b'r', b'i', b'a', b'l', 0, 0, 0, 0, 0, 0, 0, 1, 0, 0, 0, 0, 0, 0,
    0, 0, 0, 0, 0, 0, 0x7e, 0, 0, 0, 4, 4, 0, 0, 0, 5, 5, b't', b'i', b'm', b'e', b'r', 0, 0, 0, 0,
    0, 0, 0, 1, 0, 0, 0, 0, 0, 0, 0, 0, 0, 0, 0, 0, 0, 0, 0, 0, 0x7e, 0, 0, 0, 5, 0,
];

/// The guest's file with the serial section of version 1.
pub(crate) fn old_guest_file(alloc: Global) -> Result<Vec<u8>, AllocError> {
    let mut file = guest_file(alloc)?;
    file.truncate(SERIAL_AT);
    file.extend_from_slice(&OLD_DEVICES)?;
    Ok(file)
}
