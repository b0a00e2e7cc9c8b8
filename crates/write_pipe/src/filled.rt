use page_cell::PageBuf;
use std::snapshot::Snapshot;

/// A page that was copied, on its way through the queue.
#[derive(Drop)]
pub(crate) struct Filled<P> {
    pub(crate) page: u32,
    pub(crate) bytes: PageBuf,
    /// The plant when the relay was made, in the buffer that goes through the queue before any page does.
    pub(crate) from: Option<Snapshot<P>>,
}
