use snapshot_by_hand::{SMALLEST, Snapshot, file_of};
use std::alloc::{AllocError, Global};
use std::test::Fail;
use test_lines::{Differs, Fails, Line, READER, difference};

/// The guest at boot with the serial section of version 1.
const OLD: Snapshot<'static> = Snapshot {
    serial_version: 1,
    ..SMALLEST
};

const OF_TWO_BLOCKS: Snapshot<'static> = Snapshot {
    blocks: 2,
    ..SMALLEST
};

const CHECK: [&str; 2] = ["check", "in=a"];

const RESTORE: [&str; 3] = ["restore", "in=a", "run=1"];

/// In what the answer to the words over a file differs from a refusal with this line, if in anything.
fn refusal<'a>(
    alloc: Global,
    words: &'a [&'static str],
    file: &'a [u8],
    printed: &'a str,
) -> Result<Option<Differs>, Fail> {
    let line = Line {
        words,
        input: file,
        status: 3,
        printed,
        ..READER
    };
    Ok(difference(alloc, &line)?)
}

/// A file of these bytes with others over them, from a place on.
fn changed(alloc: Global, file: &[u8], at: usize, bytes: &[u8]) -> Result<Vec<u8>, AllocError> {
    let mut file = file.to_vec(alloc)?;
    for (place, byte) in file.iter_mut().skip(at).zip(bytes) {
        *place = *byte;
    }
    Ok(file)
}

/// A snapshot, the length of its file, and what a check of it prints.
static WHOLE: [(Snapshot, usize, &str); 3] = [
    (SMALLEST, 1_053_072, "ok vcpus 1 blocks 1 pages 1\n"),
    (OLD, 1_053_068, "ok vcpus 1 blocks 1 pages 1\n"),
    (OF_TWO_BLOCKS, 2_101_648, "ok vcpus 1 blocks 2 pages 1\n"),
];

#[test]
fn a_whole_file_is_checked(rt: HostRuntime) -> Result<(), Fail> {
    let alloc = rt.alloc();
    for (snapshot, len, printed) in &WHOLE {
        let file = file_of(alloc, snapshot)?;
        assert!(rt; file.len() == *len);
        let line = Line {
            words: &CHECK,
            input: &file,
            printed,
            ..READER
        };
        assert_eq!(rt; difference(alloc, &line)?, None);
    }
    Ok(())
}

/// A place of the file with the serial section of version 1, other bytes for it, and the line of the refusal.
#[rattlefmt::skip]
static WRONG_BYTES: [(usize, &[u8], &str); 24] = [
    (0, &[0], "fault 3 file magic 4544077\n"),
    (7, &[2], "fault 3 file stream-version 2\n"),
    (12, &[10], "fault 3 file config 12 10\n"),
    (38, &[3], "fault 3 file ram-version 3\n"),
    (39, &[0, 0, 0, 0, 0, 0, 0, 4], "fault 3 file total 4\n"),
    (39, &[0xff, 0xff, 0xff, 0xff, 0xff, 0xff, 0xf0, 4], "fault 3 file total 18446744073709547524\n"),
    (39, &[0, 0, 0, 0, 0, 0, 0x10, 0], "fault 3 file flags 39 4096\n"),
    (39, &[0, 0, 0, 0, 0, 0, 0x20, 4], "fault 3 file name 1 1052672 0\n"),
    (52, &[0, 0, 0, 0, 0, 0, 0, 0], "fault 3 file length 0 0\n"),
    (52, &[0, 0, 0, 0, 0, 0, 0x20, 0], "fault 3 file length 0 8192\n"),
    (60, &[0, 0, 0, 2, 0, 0, 0, 0, 0, 0, 0x20, 0], "fault 3 file header-version 0 2\n"),
    (64, &[0, 0, 0, 0, 0, 0, 0x20, 0], "fault 3 file header-page-size 0 8192\n"),
    (72, &[0xff; 8], "fault 3 file header-bitmap-offset 0 18446744073709551615\n"),
    (80, &[0, 0, 0, 0, 0, 0x20, 0, 0], "fault 3 file header-pages-offset 0 2097152\n"),
    (1_052_684, &[3], "fault 3 file footer 1052684 3\n"),
    (1_052_708, &[6], "fault 3 file section 1052708 6\n"),
    (1_052_976, &[0x40, 0, 0, 0, 0, 0, 0, 1], "fault 3 file device-steps 1052976 4611686018427387905\n"),
    (1_052_984, &[11], "fault 3 file device-state 1052984 11\n"),
    (1_053_018, &[0xff; 4], "fault 3 file device-serial-length 1053018 4294967295\n"),
    (1_053_018, &[0, 1, 0, 0], "fault 3 file truncated 1053022\n"),
    (1_053_009, &[2, 0, 0, 0, 0, 0, 0, 0, 0, 0, 0, 0, 0, 0, 0, 0x10, 1], "fault 3 file device-input-length 1053022 4097\n"),
    (1_053_022, &[0x7c], "fault 3 file footer 1053022 124\n"),
    (1_053_046, &[0x40, 0, 0, 0, 0, 0, 0, 1], "fault 3 file device-clock 1053046 4611686018427387905\n"),
    (1_053_067, &[2], "fault 3 file section 1053067 2\n"),
];

#[test]
fn a_wrong_number_is_printed_with_its_place(rt: HostRuntime) -> Result<(), Fail> {
    let alloc = rt.alloc();
    let file = file_of(alloc, &OLD)?;
    for (at, bytes, printed) in &WRONG_BYTES {
        let wrong = changed(alloc, &file, *at, bytes)?;
        assert_eq!(rt; refusal(alloc, &CHECK, &wrong, printed)?, None, "{printed}");
        assert_eq!(rt;
            refusal(alloc, &RESTORE, &wrong, printed)?,
            None,
            "{printed}"
        );
    }
    Ok(())
}

/// Where a piece of the file with the serial section of version 1 begins, where the next one does, and the line of a file
/// that ends in the piece.
#[rattlefmt::skip]
static PIECES: [(usize, usize, &str); 28] = [
    (0, 4, "fault 3 file truncated 0\n"),
    (4, 8, "fault 3 file truncated 4\n"),
    (8, 22, "fault 3 file truncated 8\n"),
    (22, 35, "fault 3 file truncated 22\n"),
    (35, 39, "fault 3 file truncated 35\n"),
    (39, 47, "fault 3 file truncated 39\n"),
    (47, 52, "fault 3 file truncated 47\n"),
    (52, 60, "fault 3 file truncated 52\n"),
    (60, 88, "fault 3 file truncated 60\n"),
    (88, 96, "fault 3 file truncated 88\n"),
    (96, 1_052_672, "fault 3 file truncated 1048576\n"),
    (1_052_672, 1_052_680, "fault 3 file truncated 1052672\n"),
    (1_052_680, 1_052_685, "fault 3 file truncated 1052680\n"),
    (1_052_685, 1_052_690, "fault 3 file truncated 1052685\n"),
    (1_052_690, 1_052_698, "fault 3 file truncated 1052690\n"),
    (1_052_698, 1_052_703, "fault 3 file truncated 1052698\n"),
    (1_052_703, 1_052_709, "fault 3 file truncated 1052703\n"),
    (1_052_709, 1_052_720, "fault 3 file truncated 1052709\n"),
    (1_052_720, 1_052_985, "fault 3 file truncated 1052720\n"),
    (1_052_985, 1_052_990, "fault 3 file truncated 1052985\n"),
    (1_052_990, 1_052_996, "fault 3 file truncated 1052990\n"),
    (1_052_996, 1_053_010, "fault 3 file truncated 1052996\n"),
    (1_053_010, 1_053_022, "fault 3 file truncated 1053010\n"),
    (1_053_022, 1_053_027, "fault 3 file truncated 1053022\n"),
    (1_053_027, 1_053_046, "fault 3 file truncated 1053027\n"),
    (1_053_046, 1_053_062, "fault 3 file truncated 1053046\n"),
    (1_053_062, 1_053_067, "fault 3 file truncated 1053062\n"),
    (1_053_067, 1_053_068, "fault 3 file truncated 1053067\n"),
];

#[test]
fn a_cut_file_is_refused_at_the_piece_that_it_ends_in(rt: HostRuntime) -> Result<(), Fail> {
    let alloc = rt.alloc();
    let file = file_of(alloc, &OLD)?;
    for (start, next, printed) in &PIECES {
        let last = next.saturating_sub(1);
        for cut in [*start, last.min(start.saturating_add(1)), last] {
            let cut = file.get(..cut).unwrap_or(&[]);
            assert_eq!(rt; refusal(alloc, &CHECK, cut, printed)?, None, "{printed}");
        }
    }
    Ok(())
}

/// A snapshot, and the lines of its file with a byte more and with a byte less.
static ENDS: [(Snapshot, &str, &str); 2] = [
    (
        OLD,
        "fault 3 file trailing 1053068\n",
        "fault 3 file truncated 1053067\n",
    ),
    (
        SMALLEST,
        "fault 3 file trailing 1053072\n",
        "fault 3 file truncated 1053071\n",
    ),
];

#[test]
fn a_longer_or_shorter_file_is_refused_at_its_end(rt: HostRuntime) -> Result<(), Fail> {
    let alloc = rt.alloc();
    for (snapshot, longer, shorter) in &ENDS {
        let mut file = file_of(alloc, snapshot)?;
        let len = file.len();
        file.push(0)?;
        assert_eq!(rt; refusal(alloc, &CHECK, &file, longer)?, None);
        file.truncate(len.saturating_sub(1));
        assert_eq!(rt; refusal(alloc, &CHECK, &file, shorter)?, None);
    }
    Ok(())
}

#[test]
fn a_read_that_failed_is_no_refusal(rt: HostRuntime) -> Result<(), Fail> {
    let alloc = rt.alloc();
    let file = file_of(alloc, &SMALLEST)?;
    for words in [CHECK.as_slice(), RESTORE.as_slice()] {
        for call in 1..20 {
            let line = Line {
                words,
                input: &file,
                input_fails: Fails::At(call),
                status: 4,
                printed: "fault 4 file-fault\n",
                ..READER
            };
            assert_eq!(rt; difference(alloc, &line)?, None, "call {call}");
        }
    }
    Ok(())
}
