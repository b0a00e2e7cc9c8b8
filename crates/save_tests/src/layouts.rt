use crate::row::{Save, all_restored, checked, saved};
use snapshot_by_hand::{GUEST, SMALLEST, Snapshot, file_of};
use std::alloc::Global;
use std::test::Fail;

const OF_ONE_PAGE: &str = "save complete blocked 0 faults 0 sweep 1
clock 0
cpu 0 running pc 0000000080000000 steps 0
serial 0 lost 0
timer 0000000000000000
ram pages 1 nonzero 1 sum 0000007300100293
";

const OF_TWO_PAGES: &str = "save complete blocked 0 faults 0 sweep 2
clock 0
cpu 0 running pc 0000000080000000 steps 0
serial 0 lost 0
timer 0000000000000000
ram pages 2 nonzero 1 sum 0000007300100293
";

const OF_64_PAGES: &str = "save complete blocked 0 faults 0 sweep 64
clock 0
cpu 0 running pc 0000000080000000 steps 0
serial 0 lost 0
timer 0000000000000000
ram pages 64 nonzero 1 sum 0000007300100293
";

const OF_65_PAGES: &str = "save complete blocked 0 faults 0 sweep 65
clock 0
cpu 0 running pc 0000000080000000 steps 0
serial 0 lost 0
timer 0000000000000000
ram pages 65 nonzero 1 sum 0000007300100293
";

/// How a machine at boot with the guest is saved: the words of its shape, its blocks and the pages of each, the report, the
/// length of the file and what a check of it prints.
#[rattlefmt::skip]
static SHAPES: [(&[&str], u8, u16, &str, usize, &str); 5] = [
    (&["save", "image=a", "out=b", "vcpus=1", "blocks=1", "pages=1", "stop=0", "run=0"], 1, 1, OF_ONE_PAGE, 1_053_072, "ok vcpus 1 blocks 1 pages 1\n"),
    (&["save", "image=a", "out=b", "blocks=2", "pages=1"], 2, 1, OF_TWO_PAGES, 2_101_648, "ok vcpus 1 blocks 2 pages 1\n"),
    (&["save", "image=a", "out=b", "pages=2"], 1, 2, OF_TWO_PAGES, 1_057_168, "ok vcpus 1 blocks 1 pages 2\n"),
    (&["save", "image=a", "out=b", "pages=64"], 1, 64, OF_64_PAGES, 1_311_120, "ok vcpus 1 blocks 1 pages 64\n"),
    (&["save", "image=a", "out=b", "pages=65"], 1, 65, OF_65_PAGES, 1_315_216, "ok vcpus 1 blocks 1 pages 65\n"),
];

/// Whether the file of a machine has this length, and a check of it prints this line.
fn is_laid_out(alloc: Global, instant: &Snapshot, len: usize, ok: &str) -> Result<bool, Fail> {
    let file = file_of(alloc, instant)?;
    Ok(file.len() == len && checked(alloc, &file, 0, ok)?.is_none())
}

#[test]
fn machines_of_each_shape_have_their_layout(rt: HostRuntime) -> Result<(), Fail> {
    let alloc = rt.alloc();
    for &(words, blocks, pages, report, len, ok) in &SHAPES {
        let instant = Snapshot {
            blocks,
            pages,
            ..SMALLEST
        };
        let save = Save {
            words,
            image: &GUEST,
            report,
            first: &[],
            second: &[],
            instant,
            restored: &[],
        };
        assert_eq!(rt; saved(alloc, &save)?, None, "{ok}");
        assert!(rt; is_laid_out(alloc, &instant, len, ok)?, "{ok}");
    }
    Ok(())
}

const RESTORED: &str = "clock 0
cpu 0 running pc 0000000080000000 steps 0
serial 0 lost 0
timer 0000000000000000
ram pages 2 nonzero 1 sum 0000007300100293
";

#[test]
fn a_bit_of_a_page_of_zeros_or_of_no_page_changes_nothing(rt: HostRuntime) -> Result<(), Fail> {
    let alloc = rt.alloc();
    let two_pages = Snapshot {
        pages: 2,
        ..SMALLEST
    };
    let mut file = file_of(alloc, &two_pages)?;
    for bits in [1, 3, 5] {
        for byte in file.iter_mut().skip(88).take(1) {
            *byte = bits;
        }
        let found = all_restored(
            alloc,
            &file,
            &[(&["restore", "in=a", "run=0"], RESTORED, &[])],
        )?;
        assert_eq!(rt; found, None, "bits {bits}");
    }
    Ok(())
}
