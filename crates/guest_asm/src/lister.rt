ghost use Rattle.std.specs.Prelude.{◌≡◌, ◌≤◌, ◌++◌, [], ◌∷◌, codes, length, string_bytes, is_some, IfOk, IfSome, IsTrue, OnOk};
ghost use Rattle.std.specs.Int.{from_le_bytes, w32};
ghost use Rattle.std.specs.List.{flat_map};
ghost use Rattle.rv64i_decode.specs.Immediate.{IsUpperImmediate};
ghost use Rattle.rv64i_decode.specs.Valid.{IsValid};
ghost use Rattle.guest_asm.specs.Assemble.{IsAssembled};
ghost use Rattle.guest_asm.specs.Listing.{byte_line, hex_digits, indexed_text, list_of, numbered_text, registers_text, statement_text, upper_number, word_line};

use crate::MAX_TEXT;
use crate::spelling::{
    of_amo, of_branch, of_imm, of_load, of_reg, of_reg_w, of_shift, of_shift_w, of_store, of_suffix,
};
use ram_block::NoMemory;
use rv64i_decode::{Instr, decode};
use std::alloc::{AllocError, Global};

/// The text that assembles to these bytes: a line for each four of them, then one for each byte that is left.
#[tactic(auto, using(crate::proofs::Chunks::list_by_chunks))]
pub fn listing(alloc: Global, bytes: &[u8]) -> Result<Vec<u8>, NoMemory>
    ensures listing { IfOk result (λ text. text.items ≡ list_of bytes.now) }
    ensures assembles { IfOk result (λ text.
        length text.items ≤ MAX_TEXT → IsAssembled text.items bytes.now) }
{
    let mut text = String::new(alloc);
    let (words, rest) = bytes.as_chunks::<4>();
    put_words(&mut text, words)?;
    put_bytes(&mut text, rest)?;
    Ok(text.into_bytes())
}

// The lines of words, one each.
fn put_words(text: &mut String, words: &[[u8; 4]]) -> Result<(), AllocError>
    ensures { OnOk result (string_bytes text.new ≡ string_bytes text.old
        ++ flat_map (λ word. word_line (from_le_bytes w32 word)) words.now) }
{
    for word in words {
        put_word(text, u32::from_le_bytes(*word))?;
    }
    Ok(())
}

// The lines of bytes, one each.
fn put_bytes(text: &mut String, bytes: &[u8]) -> Result<(), AllocError>
    ensures { OnOk result (string_bytes text.new ≡ string_bytes text.old ++ flat_map byte_line bytes.now) }
{
    for byte in bytes {
        put_byte(text, *byte)?;
    }
    Ok(())
}

// The line of a byte.
#[tactic(auto, using(crate::proofs::Hex::hex_byte))]
fn put_byte(text: &mut String, byte: u8) -> Result<(), AllocError>
    ensures { OnOk result (string_bytes text.new ≡ string_bytes text.old ++ byte_line byte) }
{
    writeln!(text, ".byte 0x{byte:02x}")
}

// The line of a word.
#[tactic(auto, unfolding(crate::specs::Listing::word_line))]
fn put_word(text: &mut String, word: u32) -> Result<(), AllocError>
    ensures { OnOk result (string_bytes text.new ≡ string_bytes text.old ++ word_line word) }
{
    match decode(word) {
        Some(instr) if has_statement(instr) => {
            put_statement(text, instr)?;
            text.push('\n')
        }
        _ => put_data(text, word),
    }
}

// The line of a word without a statement.
fn put_data(text: &mut String, word: u32) -> Result<(), AllocError>
    ensures { OnOk result (string_bytes text.new ≡ string_bytes text.old ++ (codes ".word 0x" ++ hex_digits 8 word ++ 10 ∷ [])) }
{
    writeln!(text, ".word 0x{word:08x}")
}

// Whether an instruction has a statement: every one but a fence with operands.
#[tactic(auto, unfolding(crate::specs::Listing::statement_text))]
fn has_statement(instr: Instr) -> bool
    ensures { result ≡ is_some (statement_text instr) }
{
    match instr {
        Instr::Fence { rd, rs1, bits } => rd == 0 && rs1 == 0 && bits == 0b1111_1111,
        _ => true,
    }
}

// The statement of an instruction that has one.
#[tactic(auto, unfolding(crate::specs::Listing::statement_text))]
fn put_statement(text: &mut String, instr: Instr) -> Result<(), AllocError>
    requires { IsValid instr }
    ensures { OnOk result (IfSome (statement_text instr) (λ statement.
        string_bytes text.new ≡ string_bytes text.old ++ statement)) }
{
    match instr {
        Instr::Lui { rd, imm } => write!(text, "lui x{rd}, {}", upper_number(imm)),
        Instr::Auipc { rd, imm } => write!(text, "auipc x{rd}, {}", upper_number(imm)),
        Instr::Jal { rd, off } => write!(text, "jal x{rd}, {off}"),
        Instr::Jalr { rd, rs1, off } => put_indexed(text, "jalr", rd, off, rs1),
        Instr::Branch { op, rs1, rs2, off } => put_numbered(text, of_branch(op), rs1, rs2, off),
        Instr::Load { op, rd, rs1, off } => put_indexed(text, of_load(op), rd, off, rs1),
        Instr::Store { op, rs1, rs2, off } => put_indexed(text, of_store(op), rs2, off, rs1),
        Instr::Imm { op, rd, rs1, imm } => put_numbered(text, of_imm(op), rd, rs1, imm),
        Instr::Shift {
            op,
            rd,
            rs1,
            amount,
        } => put_numbered(text, of_shift(op), rd, rs1, i64::from(amount)),
        Instr::ImmW { rd, rs1, imm } => put_numbered(text, "addiw", rd, rs1, imm),
        Instr::ShiftW {
            op,
            rd,
            rs1,
            amount,
        } => put_numbered(text, of_shift_w(op), rd, rs1, i64::from(amount)),
        Instr::Op { op, rd, rs1, rs2 } => put_registers(text, of_reg(op), rd, rs1, rs2),
        Instr::OpW { op, rd, rs1, rs2 } => put_registers(text, of_reg_w(op), rd, rs1, rs2),
        Instr::Fence { .. } => text.push_str("fence"),
        Instr::Ecall => text.push_str("ecall"),
        Instr::Ebreak => text.push_str("ebreak"),
        Instr::Amo {
            op,
            wide,
            rd,
            rs1,
            rs2,
            order,
        } => {
            let (name, suffix) = (of_amo(op), of_suffix(wide, order));
            write!(text, "{name}.{suffix} x{rd}, x{rs2}, (x{rs1})")
        }
    }
}

fn put_indexed(
    text: &mut String,
    name: &str,
    register: u8,
    off: i64,
    base: u8,
) -> Result<(), AllocError>
    ensures { OnOk result (string_bytes text.new ≡ string_bytes text.old ++ indexed_text name.now register off base) }
{
    write!(text, "{name} x{register}, {off}(x{base})")
}

fn put_numbered(
    text: &mut String,
    name: &str,
    first: u8,
    second: u8,
    number: i64,
) -> Result<(), AllocError>
    ensures { OnOk result (string_bytes text.new ≡ string_bytes text.old ++ numbered_text name.now first second number) }
{
    write!(text, "{name} x{first}, x{second}, {number}")
}

fn put_registers(
    text: &mut String,
    name: &str,
    first: u8,
    second: u8,
    third: u8,
) -> Result<(), AllocError>
    ensures { OnOk result (string_bytes text.new ≡ string_bytes text.old ++ registers_text name.now first second third) }
{
    write!(text, "{name} x{first}, x{second}, x{third}")
}

// The upper 20 bits of an immediate, without a sign.
fn upper_number(imm: i64) -> u64
    requires { IsUpperImmediate imm }
    ensures { result ≡ upper_number imm }
{
    if imm < 0 {
        (imm + 4294967296) as u64 / 4096
    } else {
        imm as u64 / 4096
    }
}
