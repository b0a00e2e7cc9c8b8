ghost use Rattle.std.specs.Prelude.{◌≡◌, ◌^◌, ◌≤◌, length, vec_len, IfOk, IfErr, OnOk};
ghost use Rattle.std.specs.Result.{result_err};
ghost use Rattle.ram_block.specs.Shape.{ram_bytes_of};
ghost use Rattle.image_file.specs.Elf.{e_phnum, file_header_fault, header_fault, table_fault, program_header, image_len, elf_of, AreSound};
ghost use Rattle.image_file.specs.Image.{Answers, IsNoReadFault};
ghost use Rattle.ram_block.specs.declared.limits.TheConstants.{MAX_RAM};

use crate::overlay::place_segments;
use crate::program_header::{PHDR_LEN, PT_LOAD, ProgramHeader, half, header_count, xword};
use crate::{ElfKind, ImageFault, ImageRefusal};
use ram_block::Shape;
use std::alloc::Global;

/// The bytes of a file header.
pub(crate) const EHDR_LEN: usize = 64;

/// The class of files of 64 bits.
pub(crate) const ELFCLASS64: u8 = 2;

/// The encoding of little-endian numbers.
pub(crate) const ELFDATA2LSB: u8 = 1;

/// The machine RISC-V.
pub(crate) const EM_RISCV: u16 = 243;

/// The image that an ELF file holds.
pub(crate) fn elf_image(alloc: Global, file: &[u8], shape: &Shape) -> Result<Vec<u8>, ImageFault>
    ensures answer { Answers (λ image. image.items) (elf_of file.now (ram_bytes_of shape.now)) result }
    ensures fits { IfOk result (λ image. vec_len image ≤ ram_bytes_of shape.now) }
    ensures nothing_read { IfErr result IsNoReadFault }
{
    check_file_header(file)?;
    let len = check_table(file, shape)?;
    Ok(place_segments(alloc, file, len as usize)?)
}

// Tests the fields of the file header in their order.
#[tactic(auto, unfolding(crate::specs::Elf::file_header_fault))]
fn check_file_header(file: &[u8]) -> Result<(), ImageRefusal>
    ensures fault { result_err result ≡ file_header_fault file.now }
    ensures whole { OnOk result (64 ≤ length file.now) }
{
    if file.len() < EHDR_LEN {
        return Err(ImageRefusal::elf(ElfKind::Short, 0));
    }
    if file[4] != ELFCLASS64 {
        return Err(ImageRefusal::elf(ElfKind::Class, 4));
    }
    if file[5] != ELFDATA2LSB {
        return Err(ImageRefusal::elf(ElfKind::Encoding, 5));
    }
    if half(file, 18) != EM_RISCV {
        return Err(ImageRefusal::elf(ElfKind::Machine, 18));
    }
    if header_count(file) != 0 && u64::from(half(file, 54)) != PHDR_LEN {
        return Err(ImageRefusal::elf(ElfKind::EntrySize, 54));
    }
    Ok(())
}

// Tests the program headers in turn, and answers how many bytes of RAM there are up to the highest end of a segment.
fn check_table(file: &[u8], shape: &Shape) -> Result<u64, ImageRefusal>
    requires { 64 ≤ length file.now }
    ensures fault { result_err result ≡ table_fault file.now (ram_bytes_of shape.now) (e_phnum file.now) }
    ensures len { IfOk result (λ n. n ≡ image_len file.now (e_phnum file.now)) }
    ensures fits { IfOk result (λ n. n ≤ ram_bytes_of shape.now) }
    ensures sound { OnOk result (AreSound file.now) }
    ensures small { ram_bytes_of shape.now ≤ MAX_RAM }
{
    let ram = ram_bytes(shape);
    let mut len: u64 = 0;
    for j in 0..header_count(file) {
        let header = check_header(file, ram, j)?;
        len = len.max(header.reach());
    }
    Ok(len)
}

// The number of bytes of RAM, with its limit.
fn ram_bytes(shape: &Shape) -> u64
    ensures value { result ≡ ram_bytes_of shape.now }
    ensures small { result ≤ MAX_RAM }
{
    shape.ram_bytes()
}

// Tests a program header.
#[tactic(auto, unfolding(crate::specs::Elf::header_fault))]
fn check_header(file: &[u8], ram: u64, j: u16) -> Result<ProgramHeader, ImageRefusal>
    requires header { 64 ≤ length file.now }
    requires small { ram ≤ MAX_RAM }
    ensures fault { result_err result ≡ header_fault file.now ram j }
    ensures ok { IfOk result (λ h. h ≡ program_header file.now j) }
{
    let at = u128::from(xword(file, 32)) + u128::from(PHDR_LEN) * u128::from(j);
    if at + u128::from(PHDR_LEN) > file.len() as u128 {
        return Err(ImageRefusal::elf(ElfKind::Table, 32));
    }
    let at = at as u64;
    let header = ProgramHeader::of(file, j);
    if header.p_type != PT_LOAD {
        return Ok(header);
    }
    if header.p_filesz > header.p_memsz {
        return Err(ImageRefusal::elf(ElfKind::Sizes, at + 32));
    }
    let end = u128::from(header.p_offset) + u128::from(header.p_filesz);
    if end > file.len() as u128 {
        return Err(ImageRefusal::elf(ElfKind::Range, at + 8));
    }
    if header.is_placed() && !header.lies_in(ram) {
        return Err(ImageRefusal::elf(ElfKind::Place, at + 24));
    }
    Ok(header)
}
