/// What a turn of the copy end answers.
#[derive(Clone, Copy, Debug, PartialEq, Eq)]
pub enum CopyTurn {
    /// The page was pushed.
    Passed(u32),
    /// The page was writable already.
    Skipped(u32),
    /// The plant's queue or the page was found held.
    Again,
    /// A push found the queue full. The page stays in hand.
    Full,
    /// A pop found no spare buffer.
    NoSpare,
    /// No page is left, and none is in hand.
    Done,
}
