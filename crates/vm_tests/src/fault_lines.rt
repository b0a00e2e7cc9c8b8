use crate::guest::{SAVE, elf_of_the_guest};
use image_file::ElfKind;
use image_file::ImageRefusal::Elf;
use snapshot_by_hand::GUEST;
use std::test::Fail;
use test_lines::{Fails, LINE, Line, READER, difference};
use vm_cli::Fault;
use vm_words::UsageKind;

/// A line that isn't served, its fault, and what is printed.
#[rattlefmt::skip]
static OTHER_LINES: [(&[&str], Fault, &str); 12] = [
    (&[], Fault::Usage { index: 0, kind: UsageKind::NoCommand }, "fault 1 usage 0 no-command\n"),
    (&["stave", "image=a", "out=b"], Fault::Usage { index: 0, kind: UsageKind::Command }, "fault 1 usage 0 command\n"),
    (&["asm", "image=a", "out"], Fault::Usage { index: 2, kind: UsageKind::NoEquals }, "fault 1 usage 2 no-equals\n"),
    (&["asm", "image=a", "out=b", "pages=1"], Fault::Usage { index: 3, kind: UsageKind::Key }, "fault 1 usage 3 key\n"),
    (&["save", "image=a", "out=b", "pages=1", "pages=1"], Fault::Usage { index: 4, kind: UsageKind::Twice }, "fault 1 usage 4 twice\n"),
    (&["save", "image=", "out=b", "pages=1"], Fault::Usage { index: 1, kind: UsageKind::Value }, "fault 1 usage 1 value\n"),
    (&["save", "image=a", "turns=1", "out=b"], Fault::Usage { index: 2, kind: UsageKind::Value }, "fault 1 usage 2 value\n"),
    (&["save"], Fault::Usage { index: 1, kind: UsageKind::Missing }, "fault 1 usage 1 missing\n"),
    (&["asm", "out=b"], Fault::Usage { index: 2, kind: UsageKind::Missing }, "fault 1 usage 2 missing\n"),
    (
        &["save", "image=a", "out=b", "vcpus=1", "blocks=1", "pages=1", "stop=0", "run=0", "mode=sliced", "seed=0", "key=a"],
        Fault::Usage { index: 10, kind: UsageKind::Key },
        "fault 1 usage 10 key\n",
    ),
    (
        &["save", "image=a", "out=b", "pages=1", "mode=threads"],
        Fault::Usage { index: 4, kind: UsageKind::NeedsThreads },
        "fault 1 usage 4 needs-threads\n",
    ),
    (
        &["record", "image=a", "out=b"],
        Fault::Usage { index: 0, kind: UsageKind::NeedsThreads },
        "fault 1 usage 0 needs-threads\n",
    ),
];

#[test]
fn every_other_line_is_answered_before_the_image(rt: HostRuntime) -> Result<(), Fail> {
    for &(words, fault, printed) in &OTHER_LINES {
        let line = Line {
            words,
            image: &GUEST,
            status: 1,
            fault: Some(fault),
            printed,
            ..READER
        };
        assert_eq!(rt; difference(rt.alloc(), &line)?, None, "{printed}");
    }
    Ok(())
}

/// A byte of the guest's ELF file that is changed, what is then wrong and at which place, and what is printed.
#[rattlefmt::skip]
static WRONG_BYTES: [(usize, u8, ElfKind, u64, &str); 8] = [
    (4, 1, ElfKind::Class, 4, "fault 2 image elf class 4\n"),
    (5, 2, ElfKind::Encoding, 5, "fault 2 image elf encoding 5\n"),
    (18, 242, ElfKind::Machine, 18, "fault 2 image elf machine 18\n"),
    (54, 57, ElfKind::EntrySize, 54, "fault 2 image elf entry-size 54\n"),
    (56, 2, ElfKind::Table, 32, "fault 2 image elf table 32\n"),
    (104, 7, ElfKind::Sizes, 96, "fault 2 image elf sizes 96\n"),
    (72, 121, ElfKind::Range, 72, "fault 2 image elf range 72\n"),
    (89, 0x10, ElfKind::Place, 88, "fault 2 image elf place 88\n"),
];

/// A save of this image, which is refused before any call on the output.
fn refused<'a>(image: &'a [u8], kind: ElfKind, at: u64, printed: &'a str) -> Line<'a> {
    Line {
        words: &SAVE,
        image,
        output_fails: Fails::From(1),
        status: 2,
        fault: Some(Fault::ImageRefused(Elf { kind, at })),
        printed,
        ..LINE
    }
}

#[test]
fn what_is_wrong_with_an_elf_file_is_printed_with_its_place(rt: HostRuntime) -> Result<(), Fail> {
    let alloc = rt.alloc();
    let right = elf_of_the_guest(0x8000_0000);
    for &(byte, value, kind, at, printed) in &WRONG_BYTES {
        let mut elf = right;
        if let Some(changed) = elf.get_mut(byte) {
            *changed = value;
        }
        assert_eq!(rt;
            difference(alloc, &refused(&elf, kind, at, printed))?,
            None,
            "{printed}"
        );
    }
    let short = right.get(..63).unwrap_or(&[]);
    let line = refused(short, ElfKind::Short, 0, "fault 2 image elf short 0\n");
    assert_eq!(rt; difference(alloc, &line)?, None);
    Ok(())
}
