ghost use Rattle.std.specs.Prelude.{◌≡◌};
ghost use Rattle.bg_saver.specs.Turn.{turn_at};

use crate::SaveEnd;

/// What a turn of the saver answers.
#[derive(Clone, Copy, Debug, PartialEq, Eq)]
pub enum Turn {
    /// The page was copied, and is in the file unless it is all zeros.
    Saved(u32),
    /// The page was writable already.
    Skipped(u32),
    /// The queue or a page was found held.
    Again,
    /// The whole file was written, and stands.
    Complete,
    /// A call on the file failed, in this turn or an earlier one.
    Failed,
}

impl Turn {
    /// What a turn answers where the save has ended.
    pub(crate) fn at_end(end: SaveEnd) -> Turn
        ensures { result ≡ turn_at end }
    {
        match end {
            SaveEnd::Complete => Turn::Complete,
            SaveEnd::Failed => Turn::Failed,
        }
    }
}

/// What a release of the pages left answers.
#[derive(Clone, Copy, Debug, PartialEq, Eq)]
pub enum Released {
    /// Every page is writable.
    Done,
    /// A page was found held.
    Again,
}
