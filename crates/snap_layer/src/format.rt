use ram_block::PAGE;

/// The first four bytes of a layer, `RVLY`.
pub const MAGIC: u32 = 0x5256_4c59;

/// The version of the format.
pub const VERSION: u32 = 1;

/// Where the number of blocks stands, in bytes from the layer's start.
pub const BLOCKS_AT: usize = 8;

/// Where the number of pages of each block stands.
pub const PAGES_AT: usize = 12;

/// Where the base's clock stands.
pub const CLOCK_AT: usize = 16;

/// Where the sum of the base's RAM stands.
pub const SUM_AT: usize = 24;

/// Where it stands how many pages the layer has.
pub const COUNT_AT: usize = 32;

/// The bytes before the first page.
pub const FRONT_LEN: usize = 36;

/// The bytes of a page with its number.
pub const ENTRY_LEN: usize = 4 + PAGE;
