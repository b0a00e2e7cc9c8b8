/// Where the mapped-ram header of a block, its bitmap and its pages begin, and where the pages end, in bytes
/// from the file's start.
#[derive(Clone, Copy, Debug, PartialEq, Eq)]
pub struct Places {
    pub header: u64,
    pub bitmap: u64,
    pub pages: u64,
    pub end: u64,
}
