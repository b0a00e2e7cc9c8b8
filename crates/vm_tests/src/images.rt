use crate::guest::{SAVE, elf_of_the_guest};
use crate::jobs::difference_in_threads;
use image_file::ImageRefusal;
use snapshot_by_hand::{GUEST, SMALLEST, Snapshot, file_of};
use std::alloc::Global;
use std::test::Fail;
use test_lines::{Differs, Fails, LINE, Line, difference};
use vm_cli::Fault;

/// The save of the guest.
const OF_THE_GUEST: Line<'static> = Line {
    words: &SAVE,
    image: &GUEST,
    printed: "save complete blocked 0 faults 0 sweep 1
clock 0
cpu 0 running pc 0000000080000000 steps 0
serial 0 lost 0
timer 0000000000000000
ram pages 1 nonzero 1 sum 0000007300100293
",
    ..LINE
};

/// In what a save of this image differs from the report and the file that are wanted, if in anything.
fn saved<'a>(
    alloc: Global,
    image: &'a [u8],
    printed: &'a str,
    file: &'a [u8],
) -> Result<Option<Differs>, Fail> {
    let line = Line {
        words: &SAVE,
        image,
        printed,
        written: file,
        ..LINE
    };
    Ok(difference(alloc, &line)?)
}

#[test]
fn the_call_with_threads_saves_the_same_file(rt: HostRuntime) -> Result<(), Fail> {
    let alloc = rt.alloc();
    let file = file_of(alloc, &SMALLEST)?;
    let line = Line {
        written: &file,
        ..OF_THE_GUEST
    };
    assert_eq!(rt; difference_in_threads(&rt, alloc, &line)?, None);
    Ok(())
}

#[test]
fn an_elf_file_of_the_guest_saves_the_same_file(rt: HostRuntime) -> Result<(), Fail> {
    let alloc = rt.alloc();
    let file = file_of(alloc, &SMALLEST)?;
    let elf = elf_of_the_guest(0x8000_0000);
    assert_eq!(rt; saved(alloc, &elf, OF_THE_GUEST.printed, &file)?, None);
    Ok(())
}

#[test]
fn the_words_may_stand_in_any_order_and_have_defaults(rt: HostRuntime) -> Result<(), Fail> {
    let alloc = rt.alloc();
    let file = file_of(alloc, &SMALLEST)?;
    let line = Line {
        words: &["save", "pages=0001", "out=b", "mode=sliced", "image=a"],
        written: &file,
        ..OF_THE_GUEST
    };
    assert_eq!(rt; difference(alloc, &line)?, None);
    Ok(())
}

const SEVENS: &str = "save complete blocked 0 faults 0 sweep 1
clock 0
cpu 0 running pc 0000000080000000 steps 0
serial 0 lost 0
timer 0000000000000000
ram pages 1 nonzero 1 sum 0e0e0e0e0e0e0e00
";

/// A page of sevens, and the machine that boots with it.
const PAGE_OF_SEVENS: [u8; 4096] = [7; 4096];

const FULL: Snapshot<'static> = Snapshot {
    saved: &[(0, &PAGE_OF_SEVENS)],
    ..SMALLEST
};

#[test]
fn an_image_fits_up_to_the_last_byte_of_the_page(rt: HostRuntime) -> Result<(), Fail> {
    let alloc = rt.alloc();
    let file = file_of(alloc, &FULL)?;
    assert_eq!(rt; saved(alloc, &PAGE_OF_SEVENS, SEVENS, &file)?, None);
    Ok(())
}

/// An image that is refused, how, and what is printed.
#[rattlefmt::skip]
static REFUSED: [(&[u8], ImageRefusal, &str); 2] = [
    (&[], ImageRefusal::Empty, "fault 2 image empty\n"),
    (&[7; 4097], ImageRefusal::TooLong(4097), "fault 2 image too-long 4097\n"),
];

#[test]
fn an_image_that_is_empty_or_too_long_is_refused_before_the_output(
    rt: HostRuntime,
) -> Result<(), Fail> {
    for &(image, refusal, printed) in &REFUSED {
        let line = Line {
            image,
            output_fails: Fails::From(1),
            status: 2,
            fault: Some(Fault::ImageRefused(refusal)),
            printed,
            ..OF_THE_GUEST
        };
        assert_eq!(rt; difference(rt.alloc(), &line)?, None);
    }
    Ok(())
}
