/// The first four bytes of a file.
pub const MAGIC: u32 = 0x5145_564d;

/// Byte 0 of a file that is whole, the first of the magic. While a file is under way it is 0.
pub const GATE: u8 = 0x51;

/// The version of the stream.
pub const STREAM_VERSION: u32 = 3;

/// The type byte of the configuration, a section of its own form with the machine's name.
pub const CONFIGURATION: u8 = 0x07;

/// The machine's name in the configuration.
pub const MACHINE_NAME: [u8; 9] = *b"rvsnap-64";

/// The id of the section of the RAM.
pub const RAM_SECTION: u32 = 2;

/// The name of the section of the RAM, with which the name of each block begins.
pub const RAM_NAME: [u8; 3] = *b"ram";

/// The version of the section of the RAM.
pub const RAM_VERSION: u32 = 4;

/// The flag in the low bits of the total.
pub const TOTAL_FLAG: u64 = 0x04;

/// The flags of an end marker.
pub const END_FLAG: u64 = 0x10;

/// The bytes of the front: what stands before the first record.
pub const FRONT_LEN: usize = 47;

/// The bytes of a record: the name of the block, the used length, and the mapped-ram header.
pub const RECORD_LEN: usize = 41;

/// The bytes between the last page and the device text.
pub const TAIL_LEN: usize = 31;
