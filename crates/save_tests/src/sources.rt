ghost use Rattle.std.specs.Prelude.{Some};

use crate::phases::{STORES, STORES_AT_BOOT};
use medium::{Failed, MemSource, Source};
use snapshot_by_hand::file_of;
use std::alloc::Global;
use std::test::Fail;
use test_lines::{Differs, LINE, Line, Outcome, difference_of, words, work_on};
use vm_cli::rvsnap_still;

/// An image that gives one byte at a time.
#[derive(Drop)]
struct Trickle {
    inner: MemSource,
}

impl Source for Trickle {
    ghost left = { λ s. Some s.inner.bytes_left };

    ghost faults = { λ s. s.inner.count.faults };

    fn read(&mut self, buf: &mut [u8]) -> Result<usize, Failed> {
        let n = buf.len().min(1);
        self.inner.read(&mut buf[..n])
    }
}

/// In what a line differs from what is wanted over an image that trickles, if in anything.
fn trickled(alloc: Global, line: &Line) -> Result<Option<Differs>, Fail> {
    let words = words(alloc, line.words)?;
    let mut files = work_on(alloc, line)?;
    let mut trickle = Trickle {
        inner: MemSource::new(line.image.to_vec(alloc)?, line.image_fails.plan(alloc)?),
    };
    let answer = rvsnap_still(
        alloc,
        &words,
        &mut trickle,
        &mut files.input,
        &mut files.output,
        &mut files.console,
    );
    Ok(difference_of(&Outcome { answer, files }, line))
}

const STORED: &str = "save complete blocked 0 faults 0 sweep 2
clock 3
cpu 0 running pc 0000000080000008 steps 2
x5 0000000080001000
serial 0 lost 0
timer 0000000000000000
ram pages 2 nonzero 2 sum 0052b02380002297
";

#[test]
fn an_image_that_comes_byte_by_byte_is_saved_alike(rt: HostRuntime) -> Result<(), Fail> {
    let alloc = rt.alloc();
    let file = file_of(alloc, &STORES_AT_BOOT)?;
    let line = Line {
        words: &["save", "image=a", "out=b", "pages=2", "run=2"],
        image: &STORES,
        printed: STORED,
        second: &[0, 0, 0],
        written: &file,
        ..LINE
    };
    assert_eq!(rt; trickled(alloc, &line)?, None);
    Ok(())
}
