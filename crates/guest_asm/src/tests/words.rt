use super::*;
use ram_block::NoMemory;
use std::alloc::Global;
use std::test::Fail;

// Whether a statement assembles to a word, and the word is listed as the statement.
fn is_word_of(alloc: Global, statement: &str, word: u32) -> Result<bool, NoMemory> {
    let listed = listing(alloc, &word.to_le_bytes())?;
    Ok(
        gives_words(alloc, statement, &[word])?
            && listed.strip_suffix(b"\n") == Some(statement.as_bytes()),
    )
}

// A statement of each mnemonic but the AMO instructions, with its word by GNU as.
fn statements() -> [(&'static str, u32); 52] {
    [
        ("add x1, x2, x3", 0x003100b3),
        ("sll x4, x5, x6", 0x00629233),
        ("slt x7, x8, x9", 0x009423b3),
        ("sltu x10, x11, x12", 0x00c5b533),
        ("xor x13, x14, x15", 0x00f746b3),
        ("srl x16, x17, x18", 0x0128d833),
        ("or x19, x20, x21", 0x015a69b3),
        ("and x22, x23, x24", 0x018bfb33),
        ("sub x25, x26, x27", 0x41bd0cb3),
        ("sra x28, x29, x30", 0x41eede33),
        ("addw x31, x0, x1", 0x00100fbb),
        ("sllw x2, x3, x4", 0x0041913b),
        ("srlw x5, x6, x7", 0x007352bb),
        ("subw x8, x9, x10", 0x40a4843b),
        ("sraw x11, x12, x13", 0x40d655bb),
        ("addi x1, x2, -2048", 0x80010093),
        ("slti x3, x4, 2047", 0x7ff22193),
        ("sltiu x5, x6, -1", 0xfff33293),
        ("xori x7, x8, 1", 0x00144393),
        ("ori x9, x10, 1365", 0x55556493),
        ("andi x11, x12, -1366", 0xaaa67593),
        ("addiw x13, x14, -3", 0xffd7069b),
        ("slli x15, x16, 63", 0x03f81793),
        ("srli x17, x18, 32", 0x02095893),
        ("srai x19, x20, 1", 0x401a5993),
        ("slliw x21, x22, 31", 0x01fb1a9b),
        ("srliw x23, x24, 16", 0x010c5b9b),
        ("sraiw x25, x26, 0", 0x400d5c9b),
        ("lb x1, -1(x2)", 0xfff10083),
        ("lh x3, 2(x4)", 0x00221183),
        ("lw x5, -2048(x6)", 0x80032283),
        ("ld x7, 2047(x8)", 0x7ff43383),
        ("lbu x9, 0(x10)", 0x00054483),
        ("lhu x11, 6(x12)", 0x00665583),
        ("lwu x13, 8(x14)", 0x00876683),
        ("jalr x15, -4(x16)", 0xffc807e7),
        ("sb x17, 5(x18)", 0x011902a3),
        ("sh x19, -6(x20)", 0xff3a1d23),
        ("sw x21, 2047(x22)", 0x7f5b2fa3),
        ("sd x23, -2048(x24)", 0x817c3023),
        ("beq x1, x2, -4096", 0x80208063),
        ("bne x3, x4, 4094", 0x7e419fe3),
        ("blt x5, x6, 8", 0x0062c463),
        ("bge x7, x8, -2", 0xfe83dfe3),
        ("bltu x9, x10, 2048", 0x00a4e0e3),
        ("bgeu x11, x12, -2050", 0xfec5ff63),
        ("jal x1, 1048574", 0x7ffff0ef),
        ("lui x2, 1048575", 0xfffff137),
        ("auipc x3, 524287", 0x7ffff197),
        ("fence", 0x0ff0000f),
        ("ecall", 0x00000073),
        ("ebreak", 0x00100073),
    ]
}

// Each AMO instruction with each of its suffixes, with its word by GNU as.
fn amo_statements() -> [(&'static str, u32); 72] {
    [
        ("amoadd.w x1, x2, (x3)", 0x0021a0af),
        ("amoadd.w.aq x4, x7, (x10)", 0x0475222f),
        ("amoadd.w.rl x7, x12, (x17)", 0x02c8a3af),
        ("amoadd.w.aqrl x10, x17, (x24)", 0x071c252f),
        ("amoadd.d x13, x22, (x31)", 0x016fb6af),
        ("amoadd.d.aq x16, x27, (x6)", 0x05b3382f),
        ("amoadd.d.rl x19, x0, (x13)", 0x0206b9af),
        ("amoadd.d.aqrl x22, x5, (x20)", 0x065a3b2f),
        ("amoswap.w x25, x10, (x27)", 0x08adacaf),
        ("amoswap.w.aq x28, x15, (x2)", 0x0cf12e2f),
        ("amoswap.w.rl x31, x20, (x9)", 0x0b44afaf),
        ("amoswap.w.aqrl x2, x25, (x16)", 0x0f98212f),
        ("amoswap.d x5, x30, (x23)", 0x09ebb2af),
        ("amoswap.d.aq x8, x3, (x30)", 0x0c3f342f),
        ("amoswap.d.rl x11, x8, (x5)", 0x0a82b5af),
        ("amoswap.d.aqrl x14, x13, (x12)", 0x0ed6372f),
        ("amoxor.w x17, x18, (x19)", 0x2129a8af),
        ("amoxor.w.aq x20, x23, (x26)", 0x257d2a2f),
        ("amoxor.w.rl x23, x28, (x1)", 0x23c0abaf),
        ("amoxor.w.aqrl x26, x1, (x8)", 0x26142d2f),
        ("amoxor.d x29, x6, (x15)", 0x2067beaf),
        ("amoxor.d.aq x0, x11, (x22)", 0x24bb302f),
        ("amoxor.d.rl x3, x16, (x29)", 0x230eb1af),
        ("amoxor.d.aqrl x6, x21, (x4)", 0x2752332f),
        ("amoor.w x9, x26, (x11)", 0x41a5a4af),
        ("amoor.w.aq x12, x31, (x18)", 0x45f9262f),
        ("amoor.w.rl x15, x4, (x25)", 0x424ca7af),
        ("amoor.w.aqrl x18, x9, (x0)", 0x4690292f),
        ("amoor.d x21, x14, (x7)", 0x40e3baaf),
        ("amoor.d.aq x24, x19, (x14)", 0x45373c2f),
        ("amoor.d.rl x27, x24, (x21)", 0x438abdaf),
        ("amoor.d.aqrl x30, x29, (x28)", 0x47de3f2f),
        ("amoand.w x1, x2, (x3)", 0x6021a0af),
        ("amoand.w.aq x4, x7, (x10)", 0x6475222f),
        ("amoand.w.rl x7, x12, (x17)", 0x62c8a3af),
        ("amoand.w.aqrl x10, x17, (x24)", 0x671c252f),
        ("amoand.d x13, x22, (x31)", 0x616fb6af),
        ("amoand.d.aq x16, x27, (x6)", 0x65b3382f),
        ("amoand.d.rl x19, x0, (x13)", 0x6206b9af),
        ("amoand.d.aqrl x22, x5, (x20)", 0x665a3b2f),
        ("amomin.w x25, x10, (x27)", 0x80adacaf),
        ("amomin.w.aq x28, x15, (x2)", 0x84f12e2f),
        ("amomin.w.rl x31, x20, (x9)", 0x8344afaf),
        ("amomin.w.aqrl x2, x25, (x16)", 0x8798212f),
        ("amomin.d x5, x30, (x23)", 0x81ebb2af),
        ("amomin.d.aq x8, x3, (x30)", 0x843f342f),
        ("amomin.d.rl x11, x8, (x5)", 0x8282b5af),
        ("amomin.d.aqrl x14, x13, (x12)", 0x86d6372f),
        ("amomax.w x17, x18, (x19)", 0xa129a8af),
        ("amomax.w.aq x20, x23, (x26)", 0xa57d2a2f),
        ("amomax.w.rl x23, x28, (x1)", 0xa3c0abaf),
        ("amomax.w.aqrl x26, x1, (x8)", 0xa6142d2f),
        ("amomax.d x29, x6, (x15)", 0xa067beaf),
        ("amomax.d.aq x0, x11, (x22)", 0xa4bb302f),
        ("amomax.d.rl x3, x16, (x29)", 0xa30eb1af),
        ("amomax.d.aqrl x6, x21, (x4)", 0xa752332f),
        ("amominu.w x9, x26, (x11)", 0xc1a5a4af),
        ("amominu.w.aq x12, x31, (x18)", 0xc5f9262f),
        ("amominu.w.rl x15, x4, (x25)", 0xc24ca7af),
        ("amominu.w.aqrl x18, x9, (x0)", 0xc690292f),
        ("amominu.d x21, x14, (x7)", 0xc0e3baaf),
        ("amominu.d.aq x24, x19, (x14)", 0xc5373c2f),
        ("amominu.d.rl x27, x24, (x21)", 0xc38abdaf),
        ("amominu.d.aqrl x30, x29, (x28)", 0xc7de3f2f),
        ("amomaxu.w x1, x2, (x3)", 0xe021a0af),
        ("amomaxu.w.aq x4, x7, (x10)", 0xe475222f),
        ("amomaxu.w.rl x7, x12, (x17)", 0xe2c8a3af),
        ("amomaxu.w.aqrl x10, x17, (x24)", 0xe71c252f),
        ("amomaxu.d x13, x22, (x31)", 0xe16fb6af),
        ("amomaxu.d.aq x16, x27, (x6)", 0xe5b3382f),
        ("amomaxu.d.rl x19, x0, (x13)", 0xe206b9af),
        ("amomaxu.d.aqrl x22, x5, (x20)", 0xe65a3b2f),
    ]
}

// Statements at both ends of the range of their number, with their words by GNU as.
fn statements_at_the_ends() -> [(&'static str, u32); 30] {
    [
        ("addi x1, x2, -2048", 0x80010093),
        ("addi x1, x2, 2047", 0x7ff10093),
        ("addiw x1, x2, -2048", 0x8001009b),
        ("addiw x1, x2, 2047", 0x7ff1009b),
        ("slli x1, x2, 0", 0x00011093),
        ("slli x1, x2, 63", 0x03f11093),
        ("srli x1, x2, 0", 0x00015093),
        ("srli x1, x2, 63", 0x03f15093),
        ("srai x1, x2, 0", 0x40015093),
        ("srai x1, x2, 63", 0x43f15093),
        ("slliw x1, x2, 0", 0x0001109b),
        ("slliw x1, x2, 31", 0x01f1109b),
        ("srliw x1, x2, 0", 0x0001509b),
        ("srliw x1, x2, 31", 0x01f1509b),
        ("sraiw x1, x2, 0", 0x4001509b),
        ("sraiw x1, x2, 31", 0x41f1509b),
        ("lb x1, -2048(x2)", 0x80010083),
        ("lb x1, 2047(x2)", 0x7ff10083),
        ("jalr x1, -2048(x2)", 0x800100e7),
        ("jalr x1, 2047(x2)", 0x7ff100e7),
        ("sb x1, -2048(x2)", 0x80110023),
        ("sb x1, 2047(x2)", 0x7e110fa3),
        ("beq x1, x2, -4096", 0x80208063),
        ("beq x1, x2, 4094", 0x7e208fe3),
        ("jal x1, -1048576", 0x800000ef),
        ("jal x1, 1048574", 0x7ffff0ef),
        ("lui x1, 0", 0x000000b7),
        ("lui x1, 1048575", 0xfffff0b7),
        ("auipc x1, 0", 0x00000097),
        ("auipc x1, 1048575", 0xfffff097),
    ]
}

#[test]
fn each_statement_is_its_word_and_is_listed_of_it(rt: HostRuntime) -> Result<(), Fail> {
    for (statement, word) in statements() {
        assert!(rt; is_word_of(rt.alloc(), statement, word)?, "at {statement}");
    }
    Ok(())
}

#[test]
fn each_amo_statement_is_its_word_and_is_listed_of_it(rt: HostRuntime) -> Result<(), Fail> {
    for (statement, word) in amo_statements() {
        assert!(rt; is_word_of(rt.alloc(), statement, word)?, "at {statement}");
    }
    Ok(())
}

#[test]
fn numbers_at_the_ends_of_their_ranges_are_taken_and_listed(rt: HostRuntime) -> Result<(), Fail> {
    for (statement, word) in statements_at_the_ends() {
        assert!(rt; is_word_of(rt.alloc(), statement, word)?, "at {statement}");
    }
    Ok(())
}

// Fences with other fields, and instructions of no row by GNU as.
#[test]
fn words_without_a_statement_are_listed_as_data(rt: HostRuntime) -> Result<(), Fail> {
    for word in [
        0x00000000_u32,
        0xffffffff,
        0xabcdef09,
        0x0000000f,
        0x0330000f,
        0x8330000f,
        0x0ff0008f,
        0x0ff0800f,
        0x0000100f,
        0x100120af,
        0x1821a0af,
        0x10500073,
        0x30200073,
    ] {
        let text = format!(in rt.alloc(); ".word 0x{word:08x}\n")?;
        let listed = listing(rt.alloc(), &word.to_le_bytes())?;
        assert!(rt; listed.as_slice() == text.as_bytes(), "at {text}");
    }
    Ok(())
}

#[test]
fn bytes_are_listed_in_fours_and_the_last_by_one(rt: HostRuntime) -> Result<(), Fail> {
    let texts: [(&[u8], &[u8]); 5] = [
        (&[], b""),
        (&[0xff], b".byte 0xff\n"),
        (&[0x73, 0x0a, 0], b".byte 0x73\n.byte 0x0a\n.byte 0x00\n"),
        (&[0x73, 0, 0, 0, 0xff], b"ecall\n.byte 0xff\n"),
        (
            &[
                0x6f, 0xf0, 0xdf, 0xff, 0x78, 0x56, 0x34, 0x12, 0x0f, 0x00, 0xf0, 0x0f,
            ],
            b"jal x0, -4\n.word 0x12345678\nfence\n",
        ),
    ];
    for (bytes, text) in texts {
        let listed = listing(rt.alloc(), bytes)?;
        assert!(rt; listed.as_slice() == text);
    }
    Ok(())
}

// Two guests, with their words by GNU as.
#[test]
fn guests_assemble_to_the_words_of_another_assembler(rt: HostRuntime) -> Result<(), Fail> {
    let fill = "lui x5, 0x10000\nlui x6, 16\naddi x6, x6, 1\nloop: sb x0, 0(x5)\naddi x6, x6, -1\n\
                bne x6, x0, loop\nlbu x7, 5(x5)\nebreak\n";
    let count = "        auipc x5, 2\n        slli  x6, x10, 12\n        add   x5, x5, x6\n\
                 loop:   ld    x7, 0(x5)\n        addi  x7, x7, 1\n        sd    x7, 0(x5)\n        jal   x0, loop\n";
    let texts: [(&str, &[u32]); 2] = [
        (
            fill,
            &[
                0x100002b7, 0x00010337, 0x00130313, 0x00028023, 0xfff30313, 0xfe031ce3, 0x0052c383,
                0x00100073,
            ],
        ),
        (
            count,
            &[
                0x00002297, 0x00c51313, 0x006282b3, 0x0002b383, 0x00138393, 0x0072b023, 0xff5ff06f,
            ],
        ),
    ];
    for (text, words) in texts {
        assert!(rt; gives_words(rt.alloc(), text, words)?, "at {text}");
    }
    Ok(())
}
