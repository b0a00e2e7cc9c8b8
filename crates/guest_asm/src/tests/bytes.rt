use super::*;
use ram_block::NoMemory;
use std::alloc::Global;
use std::test::Fail;

// The words of the instructions are GNU as's.
#[test]
fn labels_stand_before_or_after_their_use(rt: HostRuntime) -> Result<(), Fail> {
    let texts: [(&str, &[u32]); 9] = [
        ("jal x0, a\na: jal x0, a", &[0x0040006f, 0x0000006f]),
        (
            "a:\n\n b : # one place\nc: ecall\njal x0, a\njal x0, b\njal x0, c",
            &[0x00000073, 0xffdff06f, 0xff9ff06f, 0xff5ff06f],
        ),
        ("jal x0, end\nend:", &[0x0040006f]),
        ("x5: jal x0, x5", &[0x0000006f]),
        (
            "beq x1, x2, x3\nadd: add x1, x2, x3\nx3: ecall",
            &[0x00208463, 0x003100b3, 0x00000073],
        ),
        (
            "ecall: ecall\n_: jal x0, ecall\nA_9z: jal x0, _",
            &[0x00000073, 0xffdff06f, 0xffdff06f],
        ),
        (
            "a: ecall\nA: jal x0, a\nab: jal x0, A",
            &[0x00000073, 0xffdff06f, 0xffdff06f],
        ),
        (
            "jal x0, end\n.byte 1\n.zero 3\nend: jal x0, end",
            &[0x0080006f, 0x00000001, 0x0000006f],
        ),
        (
            "jal x0, a\n.zero 0\nb:\n.word 7\na: bne x1, x2, b",
            &[0x0080006f, 0x00000007, 0xfe209ee3],
        ),
    ];
    for (text, words) in texts {
        assert!(rt; gives_words(rt.alloc(), text, words)?, "at {text}");
    }
    Ok(())
}

// The words of the instructions are GNU as's.
#[test]
fn blanks_and_comments_stand_between_parts(rt: HostRuntime) -> Result<(), Fail> {
    let texts: [(&str, &[u32]); 21] = [
        (
            "\t \r a\t \r:\r \tadd\r\t x1 \t\r,\r\tx2 \r\t,\t x3\r \t",
            &[0x003100b3],
        ),
        ("a:add x1,x2,x3#x", &[0x003100b3]),
        ("\raddi\rx1\t,\tx2 , -1\r", &[0xfff10093]),
        ("\tlw\tx1\r,\t-4\r(\tx2 )\r", &[0xffc12083]),
        ("lw x1,-4(x2)", &[0xffc12083]),
        ("\ramoadd.w x1\t,\rx2 ,\r( x3\t)\t", &[0x0021a0af]),
        ("amoadd.w x1,x2,(x3)", &[0x0021a0af]),
        ("\tbne x1 ,\tx2\r, a\t\r\n\ra\t:", &[0x00209263]),
        ("\tjal\tx0 \t,\r 8\r", &[0x0080006f]),
        ("\rlui \r x1\t,\t5 ", &[0x000050b7]),
        ("\t.word\t\r 7\r\t", &[0x00000007]),
        ("\t\recall \r\t", &[0x00000073]),
        ("ecall\r\nebreak\r\n", &[0x00000073, 0x00100073]),
        ("ecall\nebreak", &[0x00000073, 0x00100073]),
        ("\n\necall # a: ebreak\n\n", &[0x00000073]),
        ("ecall#", &[0x00000073]),
        ("a:#b:\n#\n# c: ecall\r\necall # # \u{e9}\0", &[0x00000073]),
        ("", &[]),
        ("\n", &[]),
        (" \t\r\n\r", &[]),
        ("#\u{ff}\u{10ffff}", &[]),
    ];
    for (text, words) in texts {
        assert!(rt; gives_words(rt.alloc(), text, words)?, "at {text}");
    }
    Ok(())
}

#[test]
fn data_is_little_endian_without_padding(rt: HostRuntime) -> Result<(), Fail> {
    let texts: [(&str, &[u8]); 8] = [
        (
            ".byte -128\n.byte 255\n.byte 0\n.byte -1",
            &[0x80, 0xff, 0, 0xff],
        ),
        (
            ".word -2147483648\n.word 4294967295\n.word -2",
            &[
                0, 0, 0, 0x80, 0xff, 0xff, 0xff, 0xff, 0xfe, 0xff, 0xff, 0xff,
            ],
        ),
        (".dword -9223372036854775808", &[0, 0, 0, 0, 0, 0, 0, 0x80]),
        (
            ".dword 18446744073709551615",
            &[0xff, 0xff, 0xff, 0xff, 0xff, 0xff, 0xff, 0xff],
        ),
        (
            ".byte 0xaB\n.word 0xAbCdEf09\n.dword 0x0123456789abcdEF",
            &[
                0xab, 0x09, 0xef, 0xcd, 0xab, 0xef, 0xcd, 0xab, 0x89, 0x67, 0x45, 0x23, 0x01,
            ],
        ),
        (
            ".byte -0x80\n.byte -0\n.byte 00000000000000000255",
            &[0x80, 0, 0xff],
        ),
        (
            ".byte 0x000000000000001f\n.zero 0\n.zero 3\n.byte 2",
            &[0x1f, 0, 0, 0, 2],
        ),
        (".byte 1\necall\n.word 2", &[1, 0x73, 0, 0, 0, 2, 0, 0, 0]),
    ];
    for (text, bytes) in texts {
        let made = bytes_of(rt.alloc(), text)?;
        assert!(rt;
            made.is_some_and(|made| made.as_slice() == bytes),
            "at {text}"
        );
    }
    Ok(())
}

// The instruction's word by GNU as, and how many zeros stand before it and behind it.
#[test]
fn labels_at_the_ends_of_their_reach_are_taken(rt: HostRuntime) -> Result<(), Fail> {
    for (text, before, word, behind) in [
        ("beq x0, x0, far\n.zero 4090\nfar:", 0, 0x7e000fe3, 4090),
        ("far: .zero 4096\nbeq x0, x0, far", 4096, 0x80000063, 0),
        ("jal x0, far\n.zero 1048570\nfar:", 0, 0x7ffff06f, 1048570),
        ("far: .zero 1048576\njal x0, far", 1048576, 0x8000006f, 0),
    ] {
        let mut bytes = zeros(rt.alloc(), before)?;
        bytes.extend_from_slice(&u32::to_le_bytes(word))?;
        bytes.append(&mut zeros(rt.alloc(), behind)?)?;
        let made = bytes_of(rt.alloc(), text)?;
        assert!(rt;
            made.is_some_and(|made| made.as_slice() == bytes.as_slice()),
            "at {text}"
        );
    }
    Ok(())
}

fn zeros(alloc: Global, count: u32) -> Result<Vec<u8>, NoMemory> {
    let mut bytes = Vec::new(alloc);
    bytes.resize(count as usize, 0)?;
    Ok(bytes)
}

#[test]
fn a_text_gives_as_many_bytes_as_the_most_and_no_more(rt: HostRuntime) -> Result<(), Fail> {
    let made = bytes_of(rt.alloc(), ".zero 67108864\n.zero 0\na:")?;
    assert!(rt; made.is_some_and(|made| made.len() == 67108864 && made.iter().all(|b| *b == 0)));
    for (text, kind) in [
        (".zero 67108864\n.byte 1", AsmKind::TooLarge),
        (".zero 67108861\necall", AsmKind::TooLarge),
        (".zero 67108864\nadd x1, x2, x32", AsmKind::Register),
        (".zero 67108864\njal x0, nowhere", AsmKind::Label),
        ("far: .zero 67108864\njal x0, far", AsmKind::Reach),
    ] {
        let fault = fault_of(rt.alloc(), text)?;
        assert_eq!(rt; fault, Some((2, kind)), "at {text}");
    }
    Ok(())
}
