/// What a fetch answers.
#[derive(Clone, Copy, Debug, PartialEq, Eq)]
pub enum Fetch {
    /// The page came out of the queue, and is in hand.
    Got(u32),
    /// A pop found the queue empty.
    Empty,
}

/// What a discard answers.
#[derive(Clone, Copy, Debug, PartialEq, Eq)]
pub enum Discard {
    /// The page that was in hand, or that came out of the queue, was dropped.
    Took(u32),
    /// A pop found the queue empty.
    Again,
    /// All pages have come out of the queue, and none is in hand.
    Done,
}
