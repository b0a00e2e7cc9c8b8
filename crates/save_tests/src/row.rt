use snapshot_by_hand::{Snapshot, file_of};
use std::alloc::Global;
use std::test::Fail;
use test_lines::{Differs, LINE, Line, READER, difference};

/// A restore of the file: its words, what it prints, and the members of its order.
pub(crate) type Restored<'a> = (&'a [&'static str], &'a str, &'a [u8]);

/// A save that ends well: its words, its image, what it prints, the members of the orders of its two phases, the machine at the
/// instant, and restores of its file.
#[derive(Clone, Copy)]
pub(crate) struct Save {
    pub(crate) words: &'static [&'static str],
    pub(crate) image: &'static [u8],
    pub(crate) report: &'static str,
    pub(crate) first: &'static [u8],
    pub(crate) second: &'static [u8],
    pub(crate) instant: Snapshot<'static>,
    pub(crate) restored: &'static [Restored<'static>],
}

/// In what a save or a restore of its file differs from what is wanted, if in anything.
pub(crate) fn saved(alloc: Global, save: &Save) -> Result<Option<Differs>, Fail> {
    let file = file_of(alloc, &save.instant)?;
    saved_of(alloc, save, save.words, save.image, &file)
}

/// The same with these words over this image, into this file.
pub(crate) fn saved_of<'a>(
    alloc: Global,
    save: &Save,
    words: &'a [&'static str],
    image: &'a [u8],
    file: &'a [u8],
) -> Result<Option<Differs>, Fail> {
    let line = Line {
        words,
        image,
        printed: save.report,
        first: save.first,
        second: save.second,
        written: file,
        ..LINE
    };
    match difference(alloc, &line)? {
        None => all_restored(alloc, file, save.restored),
        found => Ok(found),
    }
}

/// In what the first of some restores of a file that differs does so, if any.
pub(crate) fn all_restored<'a>(
    alloc: Global,
    file: &'a [u8],
    restored: &[Restored<'a>],
) -> Result<Option<Differs>, Fail> {
    for (words, printed, first) in restored {
        let line = Line {
            words,
            input: file,
            printed,
            first,
            ..READER
        };
        let found = difference(alloc, &line)?;
        if found.is_some() {
            return Ok(found);
        }
    }
    Ok(None)
}

/// In what a check of a file differs from the status and the line that are wanted, if in anything.
pub(crate) fn checked<'a>(
    alloc: Global,
    file: &'a [u8],
    status: u8,
    printed: &'a str,
) -> Result<Option<Differs>, Fail> {
    let line = Line {
        words: &["check", "in=b"],
        input: file,
        status,
        printed,
        ..READER
    };
    Ok(difference(alloc, &line)?)
}

/// A report from its second line on.
pub(crate) fn behind_first_line(report: &str) -> &str {
    report.split_once('\n').map_or("", |parts| parts.1)
}
