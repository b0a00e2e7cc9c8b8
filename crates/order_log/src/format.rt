/// The first number of an order file.
pub const MAGIC: u32 = 0x5256_4f52;

/// The second number of an order file.
pub const VERSION: u32 = 1;

/// Where the members of an order file begin.
pub const HEAD_LEN: u64 = 20;

/// The most members of an order: a phase of the most instructions has as many events at most.
pub const MAX_EVENTS: u64 = 16_000_000;
