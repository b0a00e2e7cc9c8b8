use super::*;
use std::test::Fail;

#[test]
fn each_kind_of_a_wrong_line_is_named(rt: HostRuntime) -> Result<(), Fail> {
    for (text, line, kind) in [
        ("a: ecall\na: ecall", 2, AsmKind::Twice),
        ("_a1:\n\n _a1 :", 3, AsmKind::Twice),
        ("Add x1, x2, x3", 1, AsmKind::Mnemonic),
        ("ecall\n1a: ecall", 2, AsmKind::Mnemonic),
        ("addi x1, x2", 1, AsmKind::Syntax),
        ("# none\r\n\r\necall x1", 3, AsmKind::Syntax),
        ("add x1, x32, x3", 1, AsmKind::Register),
        ("ecall\na: lw a0, 4(x2)", 2, AsmKind::Register),
        ("slli x1, x2, 64", 1, AsmKind::Number),
        ("ecall\nbeq x1, x2, 3", 2, AsmKind::Number),
        ("jal x0, x5", 1, AsmKind::Label),
        ("far: ecall\nbeq x0, x1, fa", 2, AsmKind::Label),
        ("beq x0, x1, far\n.zero 4096\nfar:", 1, AsmKind::Reach),
        (".byte 1\nodd: .byte 2\njal x0, odd", 3, AsmKind::Reach),
        ("ecall\n.zero 67108864", 2, AsmKind::TooLarge),
        (".byte 1\n\na: .zero 67108864\necall", 3, AsmKind::TooLarge),
    ] {
        let fault = fault_of(rt.alloc(), text)?;
        assert_eq!(rt; fault, Some((line, kind)), "at {text}");
    }
    Ok(())
}

#[test]
fn the_first_of_two_kinds_on_one_line_is_named(rt: HostRuntime) -> Result<(), Fail> {
    for (text, line, kind) in [
        ("a:\na: adds x1", 2, AsmKind::Twice),
        ("a:\na: addi x1, x2", 2, AsmKind::Twice),
        ("a:\na: add x1, x2, x32", 2, AsmKind::Twice),
        ("a:\na: .byte 256", 2, AsmKind::Twice),
        ("a:\na: jal x0, b", 2, AsmKind::Twice),
        ("a: .byte 0\na: jal x0, a", 2, AsmKind::Twice),
        ("a: .byte 0\na: .zero 67108864", 2, AsmKind::Twice),
        ("adds 5, x32, 99999", 1, AsmKind::Mnemonic),
        ("add x32, x2", 1, AsmKind::Syntax),
        ("addi 5, x2, 99999", 1, AsmKind::Syntax),
        ("beq x0, 5, nowhere", 1, AsmKind::Syntax),
        ("addi x1, x32, 99999", 1, AsmKind::Register),
        ("beq x0, x32, nowhere", 1, AsmKind::Register),
        ("odd: .byte 0\nbeq x0, x32, odd", 2, AsmKind::Register),
    ] {
        let fault = fault_of(rt.alloc(), text)?;
        assert_eq!(rt; fault, Some((line, kind)), "at {text}");
    }
    Ok(())
}

#[test]
fn the_first_of_two_wrong_lines_is_named(rt: HostRuntime) -> Result<(), Fail> {
    for (text, line, kind) in [
        ("a:\na:\na:", 2, AsmKind::Twice),
        ("adds\nadds", 1, AsmKind::Mnemonic),
        ("ecall\nadd\nadd", 2, AsmKind::Syntax),
        ("add x1, x2, x32\nadd x1, x2, x33", 1, AsmKind::Register),
        ("lui x1, 1048576\nlui x1, -1", 1, AsmKind::Number),
        ("jal x0, b\njal x0, c", 1, AsmKind::Label),
        ("a: .byte 1\njal x0, a\njal x0, a", 2, AsmKind::Reach),
        (
            "ecall\n.zero 67108864\n.zero 67108864",
            2,
            AsmKind::TooLarge,
        ),
        ("jal x0, b\nadds", 1, AsmKind::Label),
        ("a: .byte 1\njal x0, a\na:", 2, AsmKind::Reach),
        ("\n# a\n\r\n \t\nadds", 5, AsmKind::Mnemonic),
    ] {
        let fault = fault_of(rt.alloc(), text)?;
        assert_eq!(rt; fault, Some((line, kind)), "at {text}");
    }
    Ok(())
}

#[test]
fn words_of_no_row_are_no_mnemonics(rt: HostRuntime) -> Result<(), Fail> {
    let words =
        "Add ADD addd ad addx1, add.w .add amoadd amoadd. amoadd.x amoadd.W amoadd.w. amoadd.w.x \
         amoadd.w.rlaq amoadd.w.aq.rl amoadd.waq .amoadd.w amosub.w amo.w .w lr.w fence.i fence.tso \
         mul nop byte .half .Byte .byte5 .ecall ecall; ecall\x0c x1 5 . : , ( -";
    for word in words.split(' ') {
        let text = format!(in rt.alloc(); "{word} x1, x2, (x3)")?;
        let fault = fault_of(rt.alloc(), &text)?;
        assert_eq!(rt; fault, Some((1, AsmKind::Mnemonic)), "at {word}");
    }
    Ok(())
}

#[test]
fn operands_out_of_form_are_named(rt: HostRuntime) -> Result<(), Fail> {
    let statements =
        "add; add x1; add x1, x2; add x1, x2, x3, x4; add x1 x2, x3; add x1, x2 x3; add x1,, x3; \
         add , x2, x3; add x1, x2,; add x1, x2, 3; add x1, x2, (x3); add x 1, x2, x3; add x1, x2, x3: ecall; \
         addi x1, x2; addi x1, x2, x3; addi x1, x2, start; addi x1, x2, 1, 2; addi x1, x2, 1(x3); addi x1, 1, x2; \
         lw x1, x2; lw x1, 4; lw x1, (x2); lw x1, 4(x2; lw x1, 4 x2); lw x1, 4(2); lw x1, 4(x2) x; lw x1, 4(); \
         lw x1, 4(x2)(x3); lw x1, 4((x2)); lw x1, start(x2); lw x1 4(x2); sw x1, x2, 4; jalr x1, x2, 4; \
         beq x1, x2; beq x1, 4; beq x1, x2, a b; beq x1, x2, 0x; beq x1, x2, a.b; jal x0; jal 0, 4; jal 4; \
         jal x0, x1, 4; jal x0, a:; lui x1; lui x1, start; lui x1, 1, 2; lui 1, x1; \
         amoadd.w x1, x2, x3; amoadd.w x1, x2, 0(x3); amoadd.w x1, (x2), x3; amoadd.w x1, (x2); \
         amoadd.w x1, x2, (x3) x4; amoadd.w x1, x2, (3); ecall x1; ecall ,; ecall ecall; ecall\rebreak; \
         ebreak 0; fence rw, rw; .byte; .byte 1, 2; .byte 1 2; .byte (1); .byte 1:; .zero x1; .word start";
    for statement in statements.split(';') {
        let fault = fault_of(rt.alloc(), statement)?;
        assert_eq!(rt; fault, Some((1, AsmKind::Syntax)), "at {statement}");
    }
    Ok(())
}

#[test]
fn identifiers_that_are_no_registers_are_named(rt: HostRuntime) -> Result<(), Fail> {
    for name in "x32 x99 x100 x01 x00 x x1a x_1 xx1 X1 a0 zero sp pc _ f1".split(' ') {
        for statement in [
            format!(in rt.alloc(); "add {name}, x2, x3")?,
            format!(in rt.alloc(); "addi x1, {name}, 5")?,
            format!(in rt.alloc(); "sd x1, 8({name})")?,
            format!(in rt.alloc(); "amoadd.w x1, x2, ({name})")?,
        ] {
            let fault = fault_of(rt.alloc(), &statement)?;
            assert_eq!(rt; fault, Some((1, AsmKind::Register)), "at {statement}");
        }
    }
    Ok(())
}

// The last three are 21 decimal digits, twice, and 17 hexadecimal ones.
#[test]
fn numbers_out_of_form_are_named(rt: HostRuntime) -> Result<(), Fail> {
    let numbers =
        "0x,0X10,+5,- 5,12ab,--5,-+5,-,-0x,0x-5,0xg,0b1,1_000,1.0,1e3,1 2,5-,five,x5,'a',0x 1,0x+1,\
         123456789012345678901,000000000000000000000,0x00000000000000000";
    for number in numbers.split(',') {
        let statement = format!(in rt.alloc(); ".dword {number}")?;
        let fault = fault_of(rt.alloc(), &statement)?;
        assert_eq!(rt; fault, Some((1, AsmKind::Syntax)), "at {number}");
    }
    Ok(())
}

#[test]
fn numbers_outside_their_ranges_are_named(rt: HostRuntime) -> Result<(), Fail> {
    let statements =
        "addi x1, x2, -2049; addi x1, x2, 2048; addiw x1, x2, -2049; addiw x1, x2, 2048; \
         lb x1, -2049(x2); lb x1, 2048(x2); jalr x1, -2049(x2); jalr x1, 2048(x2); sb x1, -2049(x2); sb x1, 2048(x2); \
         slli x1, x2, -1; slli x1, x2, 64; srli x1, x2, -1; srli x1, x2, 64; srai x1, x2, -1; srai x1, x2, 64; \
         slliw x1, x2, -1; slliw x1, x2, 32; srliw x1, x2, -1; srliw x1, x2, 32; sraiw x1, x2, -1; sraiw x1, x2, 32; \
         beq x1, x2, -4098; beq x1, x2, 4096; beq x1, x2, -4095; beq x1, x2, 4093; beq x1, x2, 1; \
         jal x1, -1048578; jal x1, 1048576; jal x1, -1048575; jal x1, 1048573; jal x1, -1; \
         lui x1, -1; lui x1, 1048576; auipc x1, -1; auipc x1, 1048576; \
         .byte -129; .byte 256; .word -2147483649; .word 4294967296; .dword -9223372036854775809; \
         .dword 18446744073709551616; .dword 99999999999999999999; .zero -1; .zero 67108865";
    for statement in statements.split(';') {
        let fault = fault_of(rt.alloc(), statement)?;
        assert_eq!(rt; fault, Some((1, AsmKind::Number)), "at {statement}");
    }
    Ok(())
}

// The label is 4092 bytes ahead where the wrong line places no byte, and out of reach where it places four.
#[test]
fn a_line_wrong_in_mnemonic_form_or_number_places_no_byte(rt: HostRuntime) -> Result<(), Fail> {
    for (line, kind) in [
        ("adds x1, x2", AsmKind::Mnemonic),
        ("add x1, x2", AsmKind::Syntax),
        ("add x32, x2", AsmKind::Syntax),
        ("a: add x1, x2", AsmKind::Twice),
        ("addi x1, x2, 2048", AsmKind::Number),
        ("addi x1, x32, 2048", AsmKind::Register),
        ("jal x0, 3", AsmKind::Number),
        (".dword 18446744073709551616", AsmKind::Number),
        (".zero 67108865", AsmKind::Number),
    ] {
        let text = format!(in rt.alloc(); "a: beq x0, x0, far\n.zero 4088\n{line}\nfar:")?;
        let fault = fault_of(rt.alloc(), &text)?;
        assert_eq!(rt; fault, Some((3, kind)), "at {line}");
    }
    Ok(())
}

#[test]
fn a_line_wrong_in_any_other_way_places_its_bytes(rt: HostRuntime) -> Result<(), Fail> {
    for line in [
        "ecall",
        "a: ecall",
        "add x1, x2, x32",
        "a: lui y, 5",
        "jal x0, nowhere",
        "beq x0, x32, nowhere",
        ".byte 1\nodd: .byte 2\njal x0, odd",
    ] {
        let text = format!(in rt.alloc(); "a: beq x0, x0, far\n.zero 4088\n{line}\nfar:")?;
        let fault = fault_of(rt.alloc(), &text)?;
        assert_eq!(rt; fault, Some((1, AsmKind::Reach)), "at {line}");
    }
    Ok(())
}

#[test]
fn a_label_on_two_lines_has_the_place_of_the_first(rt: HostRuntime) -> Result<(), Fail> {
    for (text, line, kind) in [
        ("beq x0, x0, a\na:\n.zero 8192\na:", 4, AsmKind::Twice),
        ("a: .zero 8192\nbeq x0, x0, a\na:", 2, AsmKind::Reach),
    ] {
        let fault = fault_of(rt.alloc(), text)?;
        assert_eq!(rt; fault, Some((line, kind)), "at {text}");
    }
    Ok(())
}

#[test]
fn a_colon_behind_no_identifier_ends_no_label(rt: HostRuntime) -> Result<(), Fail> {
    for (text, kind) in [
        (": ecall", AsmKind::Mnemonic),
        ("1a: ecall", AsmKind::Mnemonic),
        ("a b: ecall", AsmKind::Mnemonic),
        ("a.b: ecall", AsmKind::Mnemonic),
        ("-: ecall", AsmKind::Mnemonic),
        ("a: b: ecall", AsmKind::Mnemonic),
        ("ecall: x", AsmKind::Mnemonic),
        ("ecall x:", AsmKind::Syntax),
        ("jal x0, a: # a", AsmKind::Syntax),
        ("add x1, x2, x3: ecall", AsmKind::Syntax),
    ] {
        let fault = fault_of(rt.alloc(), text)?;
        assert_eq!(rt; fault, Some((1, kind)), "at {text}");
    }
    Ok(())
}

#[test]
fn bytes_that_are_no_ascii_text_are_named_but_in_comments(rt: HostRuntime) -> Result<(), Fail> {
    let texts: [(&[u8], Option<AsmKind>); 12] = [
        (b"ecall # \xff\x80 : \x00\x0c", None),
        (b"#\xfe\xff", None),
        (b"ecall\xff", Some(AsmKind::Mnemonic)),
        (b"ecall\x00", Some(AsmKind::Mnemonic)),
        (b"ecall\x0b", Some(AsmKind::Mnemonic)),
        (b"add\xa0x1, x2, x3", Some(AsmKind::Mnemonic)),
        (b"\xc3\xa9: ecall", Some(AsmKind::Mnemonic)),
        (b"a\x80: ecall", Some(AsmKind::Mnemonic)),
        (b".byte 1\xff", Some(AsmKind::Syntax)),
        (b"add x1, x2, x\xb3", Some(AsmKind::Syntax)),
        (b"add x1,\x0cx2, x3", Some(AsmKind::Syntax)),
        (b"jal x0, \xe9t\xe9", Some(AsmKind::Syntax)),
    ];
    for (text, kind) in texts {
        let fault = fault_in(rt.alloc(), text)?;
        assert_eq!(rt; fault, kind.map(|kind| (1, kind)));
    }
    Ok(())
}

#[test]
fn labels_beyond_their_reach_are_named(rt: HostRuntime) -> Result<(), Fail> {
    for (text, line) in [
        ("beq x0, x0, far\n.zero 4092\nfar:", 1),
        ("beq x0, x0, far\n.zero 4089\nfar:", 1),
        ("far: .zero 4098\nbeq x0, x0, far", 2),
        ("far: .zero 4095\nbeq x0, x0, far", 2),
        ("jal x0, far\n.zero 1048572\nfar:", 1),
        ("jal x0, far\n.zero 1048569\nfar:", 1),
        ("far: .zero 1048578\njal x0, far", 2),
        ("far: .zero 1048575\njal x0, far", 2),
    ] {
        let fault = fault_of(rt.alloc(), text)?;
        assert_eq!(rt; fault, Some((line, AsmKind::Reach)), "at {text}");
    }
    Ok(())
}
