/// Whether a page may be written.
#[derive(Clone, Copy, Debug, PartialEq, Eq)]
pub enum Phase {
    /// The page holds its bytes of the instant, and a store or an AMO is stopped.
    Protected,
    Writable,
}
