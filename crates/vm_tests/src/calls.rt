use crate::guest::SAVE;
use snapshot_by_hand::GUEST;
use std::alloc::Global;
use std::test::Fail;
use test_lines::{Fails, LINE, Line, answer};

/// A line, its image, its status, and how many calls it makes on the output and on the console.
#[rattlefmt::skip]
static LINES: [(&[&str], &[u8], u8, u64, u64); 7] = [
    (&SAVE, &GUEST, 0, 9, 4),
    (&["asm", "image=a", "out=b"], b"ecall\n", 0, 3, 3),
    (&["asm", "image=a", "out=b"], b"", 0, 2, 3),
    (&["asm", "image=a", "out=b"], b"addi x1, x2\n", 9, 0, 5),
    (&["stave"], b"", 1, 0, 5),
    (&["check", "in=a"], b"", 3, 0, 3),
    (&SAVE, b"", 2, 0, 2),
];

/// The status, and how many bytes are printed, of a line over an image, where the calls on the output and on the console fail so.
fn ends<'a>(
    alloc: Global,
    words: &'a [&'static str],
    image: &'a [u8],
    output_fails: Fails,
    console_fails: Fails,
) -> Result<(u8, usize), Fail> {
    let line = Line {
        words,
        image,
        output_fails,
        console_fails,
        ..LINE
    };
    let done = answer(alloc, &line)?;
    Ok((done.answer.status, done.printed().len()))
}

#[test]
fn each_line_makes_its_calls_and_no_other(rt: HostRuntime) -> Result<(), Fail> {
    let alloc = rt.alloc();
    for &(words, image, wanted, on_output, on_console) in &LINES {
        let (behind, after) = (Fails::From(on_output + 1), Fails::From(on_console + 1));
        let (status, printed) = ends(alloc, words, image, behind, after)?;
        assert!(rt; status == wanted);

        if on_output > 0 {
            let (status, _) = ends(alloc, words, image, Fails::From(on_output), after)?;
            assert!(rt; status == 4);
        }
        let (_, less) = ends(alloc, words, image, behind, Fails::From(on_console))?;
        assert!(rt; less < printed);
    }
    Ok(())
}
