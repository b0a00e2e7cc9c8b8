ghost use Rattle.std.specs.Prelude.{◌≡◌, ℕ, ◌+◌, ◌-◌, ◌^◌, ◌++◌, ◌<◌, ◌≤◌, true, length, vec_len, slice_index, IfOk, OnOk, if◌then◌else◌};
ghost use Rattle.image_file.specs.Elf.{e_phnum, program_header, is_placed, covers, segment_byte, memory, AreSound, IsSoundSegment};
ghost use Rattle.ram_block.specs.declared.limits.TheConstants.{MAX_RAM};

use crate::program_header::{ProgramHeader, header_count};
use crate::raw::{PIECE, zeros};
use ram_block::RAM_BASE;
use std::alloc::{AllocError, Global};

/// So many bytes of RAM from its start on, as the segments of a checked file make them. They are made piece by piece,
/// so that a file in which many segments cover all of RAM takes no longer than one with as many small ones.
pub(crate) fn place_segments(alloc: Global, file: &[u8], len: usize) -> Result<Vec<u8>, AllocError>
    requires header { 64 ≤ length file.now }
    requires sound { AreSound file.now }
    requires small { len ≤ MAX_RAM }
    ensures bytes { IfOk result (λ image. image.items ≡ memory file.now RAM_BASE len) }
    ensures len { IfOk result (λ image. vec_len image ≡ len) }
{
    let mut piece = zeros(alloc, PIECE)?;
    let mut image = Vec::with_capacity(alloc, len)?;
    while image.len() < len {
        let n = PIECE.min(len - image.len());
        push_piece(&mut image, &mut piece[..n], file)?;
    }
    Ok(image)
}

// Adds the next bytes of RAM, as many as the piece has.
fn push_piece(image: &mut Vec<u8>, piece: &mut [u8], file: &[u8]) -> Result<(), AllocError>
    requires header { 64 ≤ length file.now }
    requires sound { AreSound file.now }
    requires small { vec_len image.old + length piece.old ≤ MAX_RAM }
    ensures bytes { OnOk result (image.new.items ≡ image.old.items ++ memory file.now (RAM_BASE + vec_len image.old) (length piece.old)) }
    ensures len { OnOk result (vec_len image.new ≡ vec_len image.old + length piece.old) }
{
    fill_piece(piece, RAM_BASE + image.len() as u64, file);
    image.extend_from_slice(piece)
}

// Makes the memory from an address on.
fn fill_piece(piece: &mut [u8], from: u64, file: &[u8])
    requires header { 64 ≤ length file.now }
    requires sound { AreSound file.now }
    requires small { from + length piece.old < 2 ^ 32 }
    ensures { piece.new ≡ memory file.now from (length piece.old) }
{
    piece.fill(0);
    let first = last_over(file, from, from + piece.len() as u64);
    let count = header_count(file);
    for j in first..count {
        put_segment(piece, from, file, &ProgramHeader::of(file, j));
    }
}

// The last program header whose segment has all bytes of a range of addresses. What stands before it doesn't count
// there; all count, from 0, where there is none.
fn last_over(file: &[u8], from: u64, to: u64) -> u16
    requires header { 64 ≤ length file.now }
    requires sound { AreSound file.now }
    ensures within { 0 < result → result < e_phnum file.now }
    ensures over { 0 < result → (address : ℕ) → from ≤ address → address < to → covers (program_header file.now result) address ≡ true }
{
    for j in (0..header_count(file)).rev() {
        let header = ProgramHeader::of(file, j);
        if header.is_placed() && header.p_paddr <= from && to <= header.p_paddr + header.p_memsz {
            return j;
        }
    }
    0
}

// Puts the bytes that a segment has in a piece of memory from an address on.
fn put_segment(piece: &mut [u8], from: u64, file: &[u8], header: &ProgramHeader)
    requires sound { is_placed header.now ≡ true → IsSoundSegment file.now header.now }
    requires small { from + length piece.old < 2 ^ 32 }
    ensures { (k : ℕ) → k < length piece.old → slice_index piece.new k ≡ (if covers header.now (from + k) then segment_byte file.now header.now (from + k) else slice_index piece.old k) }
{
    if !header.is_placed() {
        return;
    }
    let to = from + piece.len() as u64;
    let start = header.p_paddr.clamp(from, to);
    let middle = (header.p_paddr + header.p_filesz).clamp(from, to);
    let end = (header.p_paddr + header.p_memsz).clamp(from, to);
    put_file_bytes(piece, from, file, header, start, middle);
    put_zeros(piece, (middle - from) as usize, (end - from) as usize);
}

// Puts the file's bytes of a segment at the addresses from a start up to an end.
fn put_file_bytes(
    piece: &mut [u8],
    from: u64,
    file: &[u8],
    header: &ProgramHeader,
    start: u64,
    end: u64,
)
    requires sound { IsSoundSegment file.now header.now }
    requires piece { (from ≤ start) × (end ≤ from + length piece.old) }
    requires segment { start < end → (header.now.p_paddr ≤ start) × (end ≤ header.now.p_paddr + header.now.p_filesz) }
    ensures put { (k : ℕ) → start ≤ from + k → from + k < end → slice_index piece.new k ≡ slice_index file.now (header.now.p_offset + (from + k - header.now.p_paddr)) }
    ensures before { (k : ℕ) → from + k < start → slice_index piece.new k ≡ slice_index piece.old k }
    ensures behind { (k : ℕ) → end ≤ from + k → slice_index piece.new k ≡ slice_index piece.old k }
{
    if start < end {
        let first = (header.p_offset + (start - header.p_paddr)) as usize;
        let len = (end - start) as usize;
        put_bytes(piece, (start - from) as usize, &file[first..first + len]);
    }
}

// Puts bytes at a place.
fn put_bytes(piece: &mut [u8], at: usize, bytes: &[u8])
    requires { at + length bytes.now ≤ length piece.old }
    ensures put { (k : ℕ) → at ≤ k → k < at + length bytes.now → slice_index piece.new k ≡ slice_index bytes.now (k - at) }
    ensures before { (k : ℕ) → k < at → slice_index piece.new k ≡ slice_index piece.old k }
    ensures behind { (k : ℕ) → at + length bytes.now ≤ k → slice_index piece.new k ≡ slice_index piece.old k }
{
    piece[at..at + bytes.len()].copy_from_slice(bytes);
}

// Puts zeros from a place up to another.
fn put_zeros(piece: &mut [u8], at: usize, to: usize)
    requires order { at ≤ to }
    requires within { to ≤ length piece.old }
    ensures put { (k : ℕ) → at ≤ k → k < to → slice_index piece.new k ≡ 0 }
    ensures before { (k : ℕ) → k < at → slice_index piece.new k ≡ slice_index piece.old k }
    ensures behind { (k : ℕ) → to ≤ k → slice_index piece.new k ≡ slice_index piece.old k }
{
    piece[at..to].fill(0);
}
