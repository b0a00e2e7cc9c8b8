/// The first field of a mapped-ram header that isn't the block's, with what stands there.
#[derive(Clone, Copy, Debug, PartialEq, Eq)]
pub enum HeaderFault {
    Version(u32),
    PageSize(u64),
    BitmapOffset(u64),
    PagesOffset(u64),
}
