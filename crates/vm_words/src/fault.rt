/// What is wrong with a word of a line. The word at the index is the first that fails.
#[derive(Clone, Copy, Debug, PartialEq, Eq)]
pub enum UsageKind {
    /// There is no word.
    NoCommand,
    /// Word 0 is no command.
    Command,
    /// The word has no `=`.
    NoEquals,
    /// The command has no such key.
    Key,
    /// The key stood in an earlier word.
    Twice,
    /// The value isn't of the key's form, or doesn't go together with the line's other words.
    Value,
    /// A required key never came. The index is the number of words.
    Missing,
    /// The line needs threads, and was given to a call that starts none. `line_of` never answers it.
    NeedsThreads,
}

/// Why words give no job.
#[derive(Clone, Copy, Debug, PartialEq, Eq)]
pub enum WordsFault {
    /// The words are no line.
    Usage { index: u32, kind: UsageKind },
    NoMemory,
}
