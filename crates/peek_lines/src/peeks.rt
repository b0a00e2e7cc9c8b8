use snapshot_by_hand::{SMALLEST, Snapshot, file_of};
use std::alloc::Global;
use std::test::Fail;
use test_lines::{Differs, Fails, Line, READER, difference};

/// The guest that stores, auipc x5, 1 and sd x5, 0(x5), in two pages of which the second is all zeros.
const STORES: Snapshot<'static> = Snapshot {
    pages: 2,
    saved: &[(0, &[0x97, 0x12, 0, 0, 0x23, 0xb0, 0x52, 0])],
    ..SMALLEST
};

/// Two full pages in one block, and in two.
const ONE_BLOCK: Snapshot<'static> = Snapshot {
    pages: 2,
    saved: &[(0, &[0xaa; 4096]), (1, &[0xbb; 4096])],
    ..SMALLEST
};

const TWO_BLOCKS: Snapshot<'static> = Snapshot {
    blocks: 2,
    pages: 1,
    ..ONE_BLOCK
};

/// In what the answer to a peek at the first bytes of a file differs from this one, if in anything.
fn peek<'a>(
    alloc: Global,
    file: &'a [u8],
    words: &'a [&'static str],
    input_fails: Fails,
    status: u8,
    printed: &'a str,
) -> Result<Option<Differs>, Fail> {
    let line = Line {
        words,
        input: file,
        input_fails,
        status,
        printed,
        ..READER
    };
    Ok(difference(alloc, &line)?)
}

/// A peek, the status, and what is printed.
#[rattlefmt::skip]
static OF_THE_GUEST: [(&[&str], u8, &str); 4] = [
    (&["peek", "in=a", "pages=2", "at=0", "len=8"], 0, "9712000023b05200\n"),
    (&["peek", "in=a", "pages=2", "at=4096", "len=4"], 0, "00000000\n"),
    (&["peek", "in=a", "pages=1", "at=0", "len=8"], 10, "fault 10 peek differs 45 32\n"),
    (&["peek", "in=a", "pages=2", "at=8191", "len=2"], 1, "fault 1 usage 4 value\n"),
];

#[test]
fn a_page_that_the_file_has_not_is_zeros(rt: HostRuntime) -> Result<(), Fail> {
    let alloc = rt.alloc();
    let file = file_of(alloc, &STORES)?;
    for (words, status, printed) in &OF_THE_GUEST {
        let differs = peek(alloc, &file, words, Fails::Never, *status, printed)?;
        assert_eq!(rt; differs, None, "{printed}");
    }
    Ok(())
}

/// Of two pages in a block: how many bytes the file has, which call on it fails, the range, the status and what is printed.
#[rattlefmt::skip]
static OF_ONE_BLOCK: [(usize, Fails, &str, &str, u8, &str); 10] = [
    (usize::MAX, Fails::Never, "at=4094", "len=4", 0, "aaaabbbb\n"),
    (usize::MAX, Fails::Never, "at=8191", "len=1", 0, "bb\n"),
    (
        usize::MAX, Fails::Never, "at=4063", "len=35", 0,
        "aaaaaaaaaaaaaaaaaaaaaaaaaaaaaaaaaaaaaaaaaaaaaaaaaaaaaaaaaaaaaaaa\naabbbb\n",
    ),
    (95, Fails::Never, "at=0", "len=1", 10, "fault 10 peek truncated 0\n"),
    (0x10_0fff, Fails::Never, "at=4095", "len=1", 10, "fault 10 peek truncated 1048576\n"),
    (0x10_1fff, Fails::Never, "at=4095", "len=2", 10, "fault 10 peek truncated 1052672\n"),
    (0x10_1fff, Fails::Never, "at=4095", "len=1", 0, "aa\n"),
    (usize::MAX, Fails::At(1), "at=0", "len=1", 4, "fault 4 file-fault\n"),
    (usize::MAX, Fails::At(3), "at=0", "len=1", 4, "fault 4 file-fault\n"),
    (usize::MAX, Fails::At(4), "at=4095", "len=2", 4, "fault 4 file-fault\n"),
];

#[test]
fn a_range_may_cross_pages_and_ends_at_a_cut_one(rt: HostRuntime) -> Result<(), Fail> {
    let alloc = rt.alloc();
    let whole = file_of(alloc, &ONE_BLOCK)?;
    for (len, fails, at, count, status, printed) in &OF_ONE_BLOCK {
        let file = whole.get(..*len).unwrap_or(&whole);
        let words = ["peek", "in=a", "pages=2", *at, *count];
        let differs = peek(alloc, file, &words, *fails, *status, printed)?;
        assert_eq!(rt; differs, None, "{printed}");
    }
    Ok(())
}

/// Of a page in each of two blocks, likewise.
#[rattlefmt::skip]
static OF_TWO_BLOCKS: [(usize, &[&str], u8, &str); 5] = [
    (usize::MAX, &["peek", "in=a", "blocks=2", "pages=1", "at=4094", "len=4"], 0, "aaaabbbb\n"),
    (usize::MAX, &["peek", "in=a", "blocks=2", "pages=1", "at=8191", "len=1"], 0, "bb\n"),
    (0x10_102f, &["peek", "in=a", "blocks=2", "pages=1", "at=0", "len=1"], 10, "fault 10 peek truncated 1052672\n"),
    (usize::MAX, &["peek", "in=a", "blocks=2", "pages=2", "at=0", "len=1"], 10, "fault 10 peek differs 45 32\n"),
    (usize::MAX, &["peek", "in=a", "blocks=1", "pages=2", "at=0", "len=1"], 10, "fault 10 peek differs 58 16\n"),
];

#[test]
fn a_range_may_cross_blocks(rt: HostRuntime) -> Result<(), Fail> {
    let alloc = rt.alloc();
    let whole = file_of(alloc, &TWO_BLOCKS)?;
    for (len, words, status, printed) in &OF_TWO_BLOCKS {
        let file = whole.get(..*len).unwrap_or(&whole);
        let differs = peek(alloc, file, words, Fails::Never, *status, printed)?;
        assert_eq!(rt; differs, None, "{printed}");
    }
    Ok(())
}
