use crate::jobs::difference_in_threads;
use guest_asm::AsmKind;
use image_file::ImageRefusal;
use std::alloc::Global;
use std::test::Fail;
use test_lines::{Differs, Fails, LINE, Line, Outcome, answer, difference};
use vm_cli::Fault;

/// The line of an assembly.
const ASM: Line<'static> = Line {
    words: &["asm", "image=guest.s", "out=guest.img"],
    ..LINE
};

/// A guest of one instruction, and its word.
const ECALL: &str = "ecall\n";

const ECALL_WORD: [u8; 4] = [0x73, 0x00, 0x00, 0x00];

/// A guest that counts in RAM without end.
const LOOP: &str = "        auipc x5, 2
        slli  x6, x10, 12
        add   x5, x5, x6
loop:   ld    x7, 0(x5)
        addi  x7, x7, 1
        sd    x7, 0(x5)
        jal   x0, loop
";

/// Its words.
#[rattlefmt::skip]
const LOOP_WORDS: [u8; 28] = [
    0x97, 0x22, 0x00, 0x00,
    0x13, 0x13, 0xc5, 0x00,
    0xb3, 0x82, 0x62, 0x00,
    0x83, 0xb3, 0x02, 0x00,
    0x93, 0x83, 0x13, 0x00,
    0x23, 0xb0, 0x72, 0x00,
    0x6f, 0xf0, 0x5f, 0xff,
];

/// A text, its bytes, and what is printed.
static TEXTS: [(&str, &[u8], &str); 3] = [
    (ECALL, &ECALL_WORD, "assembled 4 bytes\n"),
    (LOOP, &LOOP_WORDS, "assembled 28 bytes\n"),
    (".zero 100", &[0; 100], "assembled 100 bytes\n"),
];

#[test]
fn a_text_is_assembled_to_its_bytes(rt: HostRuntime) -> Result<(), Fail> {
    for &(text, written, printed) in &TEXTS {
        let line = Line {
            image: text.as_bytes(),
            printed,
            written,
            ..ASM
        };
        assert_eq!(rt; difference(rt.alloc(), &line)?, None, "{printed}");
    }
    Ok(())
}

#[test]
fn the_call_with_threads_assembles_to_the_same_bytes(rt: HostRuntime) -> Result<(), Fail> {
    let line = Line {
        image: LOOP.as_bytes(),
        printed: "assembled 28 bytes\n",
        written: &LOOP_WORDS,
        ..ASM
    };
    assert_eq!(rt; difference_in_threads(&rt, rt.alloc(), &line)?, None);
    Ok(())
}

/// A text with a wrong line, the first such line, what is wrong with it, and what is printed.
#[rattlefmt::skip]
static WRONG_TEXTS: [(&str, u32, AsmKind, &str); 9] = [
    ("addi x1, x2", 1, AsmKind::Syntax, "fault 9 assembly 1 syntax\n"),
    ("a: ecall\na: ecall\n", 2, AsmKind::Twice, "fault 9 assembly 2 twice\n"),
    ("\n\n\n\n\n\n\n\n\nnop\nret\n", 10, AsmKind::Mnemonic, "fault 9 assembly 10 mnemonic\n"),
    ("ecall\naddi x1\nnop\n", 2, AsmKind::Syntax, "fault 9 assembly 2 syntax\n"),
    ("# adds\nadd x1, x2, x32\n", 2, AsmKind::Register, "fault 9 assembly 2 register\n"),
    ("slli x1, x2, 64\n", 1, AsmKind::Number, "fault 9 assembly 1 number\n"),
    ("ecall\njal x0, nowhere\n", 2, AsmKind::Label, "fault 9 assembly 2 label\n"),
    (".byte 1\nodd: .byte 2\njal x0, odd\n", 3, AsmKind::Reach, "fault 9 assembly 3 reach\n"),
    (".zero 67108864\n\n\n.byte 1\n", 4, AsmKind::TooLarge, "fault 9 assembly 4 too-large\n"),
];

#[test]
fn the_first_wrong_line_is_named_before_the_output(rt: HostRuntime) -> Result<(), Fail> {
    for &(text, line, kind, printed) in &WRONG_TEXTS {
        let line = Line {
            image: text.as_bytes(),
            output_fails: Fails::From(1),
            status: 9,
            fault: Some(Fault::AsmRefused { line, kind }),
            printed,
            ..ASM
        };
        assert_eq!(rt; difference(rt.alloc(), &line)?, None, "{printed}");
    }
    Ok(())
}

#[test]
fn a_text_may_have_1_048_576_bytes(rt: HostRuntime) -> Result<(), Fail> {
    let alloc = rt.alloc();
    for byte in [b' ', b'\n'] {
        let long = vec![in alloc; byte; 1_048_577]?;
        let line = Line {
            image: long.get(..1_048_576).unwrap_or(&[]),
            printed: "assembled 0 bytes\n",
            ..ASM
        };
        assert_eq!(rt; difference(alloc, &line)?, None);
        let line = Line {
            image: &long,
            output_fails: Fails::From(1),
            status: 2,
            fault: Some(Fault::ImageRefused(ImageRefusal::TooLong(1_048_577))),
            printed: "fault 2 image too-long 1048577\n",
            ..ASM
        };
        assert_eq!(rt; difference(alloc, &line)?, None);
    }
    Ok(())
}

/// A text, which of the calls on the output fail, and whether the assembly does. The calls are: len, write, sync; without the
/// write where there is no byte.
#[rattlefmt::skip]
static CALLS: [(&str, Fails, bool); 7] = [
    (ECALL, Fails::At(1), true),
    (ECALL, Fails::At(2), true),
    (ECALL, Fails::At(3), true),
    (ECALL, Fails::From(4), false),
    ("", Fails::At(1), true),
    ("", Fails::At(2), true),
    ("", Fails::From(3), false),
];

#[test]
fn each_call_on_the_output_may_fail(rt: HostRuntime) -> Result<(), Fail> {
    for &(text, output_fails, fails) in &CALLS {
        let line = Line {
            image: text.as_bytes(),
            output_fails,
            ..ASM
        };
        assert_eq!(rt; fails_by_its_file(rt.alloc(), &line)?, Some(fails));
    }
    Ok(())
}

/// Whether a line ends with a fault of its file, if it ends with that or well.
fn fails_by_its_file(alloc: Global, line: &Line) -> Result<Option<bool>, Fail> {
    let done = answer(alloc, line)?;
    Ok(match (done.answer.fault, done.answer.status) {
        (None, 0) => Some(false),
        (Some(Fault::FileFault), 4) if done.printed() == "fault 4 file-fault\n" => Some(true),
        _ => None,
    })
}

#[test]
fn each_read_of_the_text_may_fail(rt: HostRuntime) -> Result<(), Fail> {
    for call in 1..=2 {
        let line = Line {
            image: ECALL.as_bytes(),
            image_fails: Fails::At(call),
            output_fails: Fails::From(1),
            status: 6,
            fault: Some(Fault::ImageFault),
            printed: "fault 6 image-fault\n",
            ..ASM
        };
        assert_eq!(rt; difference(rt.alloc(), &line)?, None, "read {call}");
    }
    Ok(())
}

#[test]
fn an_output_that_has_a_byte_stays_as_it_is(rt: HostRuntime) -> Result<(), Fail> {
    let line = Line {
        image: ECALL.as_bytes(),
        output: &[9],
        status: 8,
        fault: Some(Fault::NotEmpty { len: 1 }),
        printed: "fault 8 not-empty 1\n",
        written: &[9],
        ..ASM
    };
    assert_eq!(rt; difference(rt.alloc(), &line)?, None);
    Ok(())
}

const CONSOLE_FAULT: &str = "fault 5 console-fault\n";

/// Whether what was printed is a front of a text, though not all of it, and then a front of another.
fn is_cut(printed: &str, text: &str, line: &str) -> bool {
    for len in 0..text.len() {
        let front = text.get(..len).unwrap_or(text);
        if printed
            .strip_prefix(front)
            .is_some_and(|rest| line.starts_with(rest))
        {
            return true;
        }
    }
    false
}

/// Whether the console failed while it took the number of the bytes, which stand in the output and are synced.
fn has_all_but_the_number(done: &Outcome) -> bool {
    done.answer.status == 5
        && done.answer.fault == Some(Fault::ConsoleFault)
        && is_cut(done.printed(), "assembled 4 bytes\n", CONSOLE_FAULT)
        && done.written() == ECALL_WORD.as_slice()
        && done.files.output.unsynced() == 0
}

/// The assembly of one instruction over a console with so much room, whose calls fail so.
fn on_console(console_room: u64, console_fails: Fails) -> Line<'static> {
    Line {
        image: ECALL.as_bytes(),
        console_room,
        console_fails,
        printed: "assembled 4 bytes\n",
        written: &ECALL_WORD,
        ..ASM
    }
}

/// Whether the console fails under its number, and takes this behind it.
fn is_cut_before(alloc: Global, line: &Line, behind: &str) -> Result<bool, Fail> {
    let done = answer(alloc, line)?;
    Ok(has_all_but_the_number(&done) && done.printed().ends_with(behind))
}

#[test]
fn the_bytes_stand_where_the_console_fails(rt: HostRuntime) -> Result<(), Fail> {
    let alloc = rt.alloc();
    // The calls are: the word, the digit, the rest.
    for call in 1..=3 {
        let at = on_console(1024, Fails::At(call));
        assert!(rt; is_cut_before(alloc, &at, CONSOLE_FAULT)?, "call {call}");
        let from = on_console(1024, Fails::From(call));
        assert!(rt; is_cut_before(alloc, &from, "")?, "from call {call} on");
    }
    // The line has 18 bytes.
    for room in 0..18 {
        assert!(rt;
            is_cut_before(alloc, &on_console(room, Fails::Never), "")?,
            "room {room}"
        );
    }
    assert_eq!(rt; difference(alloc, &on_console(18, Fails::From(4)))?, None);
    Ok(())
}

const WRONG_LINE: &str = "fault 9 assembly 1 syntax\n";

#[test]
fn a_fault_keeps_its_status_where_the_console_fails(rt: HostRuntime) -> Result<(), Fail> {
    let alloc = rt.alloc();
    // The line has 26 bytes.
    for room in 0..=26 {
        let line = Line {
            image: b"addi x1, x2",
            console_room: room as u64,
            status: 9,
            fault: Some(Fault::AsmRefused {
                line: 1,
                kind: AsmKind::Syntax,
            }),
            ..ASM
        };
        assert!(rt;
            has_front_of(alloc, &line, WRONG_LINE, room)?,
            "room {room}"
        );
    }
    Ok(())
}

/// Whether a line's console has a front of a text, and all of it where that fits in this room, and all else is as it has to be.
fn has_front_of(alloc: Global, line: &Line, text: &str, room: usize) -> Result<bool, Fail> {
    let done = answer(alloc, line)?;
    let printed = done.printed();
    Ok(
        done.answer.status == line.status
            && done.answer.fault == line.fault
            && text.starts_with(printed)
            && (printed == text) == (room >= text.len()),
    )
}
