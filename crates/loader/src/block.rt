ghost use Rattle.std.specs.Prelude.{◌≡◌, ◌≤◌, ◌<◌, ◌+◌, ◌*◌, ◌^◌, ℕ, List, Some, Err, IfOk, OnOk, length, false, slice_index_or};
ghost use Rattle.medium.specs.Count.{HasRisen};
ghost use Rattle.medium.specs.Members.{file_state};
ghost use Rattle.medium.specs.States.{Leaves};
ghost use Rattle.mapped_ram_header.specs.Header.{header_bytes};
ghost use Rattle.file_plan.specs.Layout.{StandsAt};
ghost use Rattle.file_plan.specs.Plan.{block_places};
ghost use Rattle.ram_block.specs.declared.page_buf.TheConstants.{PAGE};
ghost use Rattle.loader.specs.Frame.{bitmap_in, block_in, cut_page, header_in, is_cut, used_in};
ghost use Rattle.loader.specs.Piece.{Answers};
ghost use Rattle.loader.specs.Stands.{HasHeader, HasUsed};
ghost use Rattle.loader.specs.declared.refusal.LoadFault.{LoadFault};
ghost use Rattle.loader.specs.declared.refusal.LoadFault.TheVariants.{ReadFault};

use crate::piece::{Text, cut, expect, read_number64};
use crate::{LoadFault, Refusal};
use file_plan::name_of;
use mapped_ram_header::{HEADER_LEN, Places, get_header};
use medium::{Failed, Readable};
use mig_stream::FieldReader;
use page_bitmap::Bitmap;
use ram_block::PAGE;
use std::alloc::Global;

/// The most bytes of a bitmap in a file.
const MOST_BITMAP_BYTES: usize = 256;

/// The name of a block whose record begins at a place, and its used length.
#[tactic(auto, unfolding(crate::specs::Frame::used_in))]
pub(crate) fn read_used<M: Readable>(medium: &mut M, block: u32, at: u64) -> Result<u64, LoadFault>
    requires block { block < 8 }
    requires place { at ≤ 2 ^ 31 }
    ensures answer { (file : List ℕ) → M.told medium.old ≡ Some file → Answers (used_in file block at) result }
    ensures stands { (file : List ℕ) → M.told medium.old ≡ Some file → IfOk result (λ v. HasUsed file block at v) }
    ensures read_fault { result ≡ Err ReadFault → HasRisen (M.faults medium.old) (M.faults medium.new) }
    ensures leaves { Leaves (file_state M.Readable medium.old) (file_state M.Readable medium.new) }
{
    expect(medium, Text::BlockName(block), at, &name_of(block))?;
    let v = read_number64(medium, at + 5)?;
    Ok(v)
}

/// The header, the bitmap and the pages of a block: the bitmap. Each page with a set bit is there whole, by the length
/// of the file.
#[tactic(auto, unfolding(crate::specs::Frame::block_in, crate::specs::Stands::HasHeader))]
pub(crate) fn read_block<M: Readable>(
    alloc: Global,
    medium: &mut M,
    places: &Places,
    block: u32,
    pages: u32,
) -> Result<Bitmap, LoadFault>
    requires some_page { 1 ≤ pages }
    requires pages { pages ≤ 2048 }
    requires places { places.now ≡ block_places pages block }
    requires small { places.now.end ≤ 2 ^ 31 }
    ensures answer { (file : List ℕ) → M.told medium.old ≡ Some file → Answers (block_in file pages block) result }
    ensures stands { (file : List ℕ) → M.told medium.old ≡ Some file → IfOk result (λ _. HasHeader file pages block) }
    ensures pages { IfOk result (λ bits. bits.pages ≡ pages) }
    ensures read_fault { result ≡ Err ReadFault → HasRisen (M.faults medium.old) (M.faults medium.new) }
    ensures leaves { Leaves (file_state M.Readable medium.old) (file_state M.Readable medium.new) }
{
    read_header(medium, block, places)?;
    let bits = read_bitmap(alloc, medium, places.bitmap, pages)?;
    let len = file_len(medium)?;
    match cut_page(&bits, pages, places.pages, len) {
        Some(at) => Err(LoadFault::Refused(Refusal::Truncated { at })),
        None => Ok(bits),
    }
}

// The mapped-ram header of a block.
#[tactic(auto, unfolding(crate::specs::Frame::header_in))]
fn read_header<M: Readable>(medium: &mut M, block: u32, places: &Places) -> Result<(), LoadFault>
    requires { places.now.header ≤ 2 ^ 32 }
    ensures answer { (file : List ℕ) → M.told medium.old ≡ Some file → Answers (header_in file block places.now) result }
    ensures stands { (file : List ℕ) → M.told medium.old ≡ Some file → OnOk result (StandsAt file places.now.header (header_bytes places.now)) }
    ensures read_fault { result ≡ Err ReadFault → HasRisen (M.faults medium.old) (M.faults medium.new) }
    ensures leaves { Leaves (file_state M.Readable medium.old) (file_state M.Readable medium.new) }
{
    let mut bytes = [0; HEADER_LEN];
    if let Err(fault) = FieldReader::new(medium, places.header).take(&mut bytes) {
        return Err(cut(fault));
    }
    match get_header(&bytes, places) {
        Ok(()) => Ok(()),
        Err(fault) => Err(LoadFault::Refused(Refusal::Header { block, fault })),
    }
}

// The bitmap of a block of so many pages, which stands at a place.
#[tactic(auto, unfolding(crate::specs::Frame::bitmap_in))]
fn read_bitmap<M: Readable>(
    alloc: Global,
    medium: &mut M,
    at: u64,
    pages: u32,
) -> Result<Bitmap, LoadFault>
    requires pages { pages ≤ 2048 }
    requires place { at ≤ 2 ^ 32 }
    ensures answer { (file : List ℕ) → M.told medium.old ≡ Some file → Answers (bitmap_in file pages at) result }
    ensures pages { IfOk result (λ bits. bits.pages ≡ pages) }
    ensures read_fault { result ≡ Err ReadFault → HasRisen (M.faults medium.old) (M.faults medium.new) }
    ensures leaves { Leaves (file_state M.Readable medium.old) (file_state M.Readable medium.new) }
{
    let Ok(mut bits) = Bitmap::new(alloc, pages) else {
        return Err(LoadFault::NoMemory);
    };
    let mut buf = [0; MOST_BITMAP_BYTES];
    let bytes = &mut buf[..bits.byte_len()];
    if let Err(fault) = FieldReader::new(medium, at).take(bytes) {
        return Err(cut(fault));
    }
    bits.get_bytes(bytes);
    Ok(bits)
}

/// How long the file is.
pub(crate) fn file_len<M: Readable>(medium: &mut M) -> Result<u64, LoadFault>
    ensures answer { (file : List ℕ) → M.told medium.old ≡ Some file → IfOk result (λ len. len ≡ length file) }
    ensures fault { (fault : LoadFault) → result ≡ Err fault → fault ≡ ReadFault }
    ensures read_fault { result ≡ Err ReadFault → HasRisen (M.faults medium.old) (M.faults medium.new) }
    ensures leaves { Leaves (file_state M.Readable medium.old) (file_state M.Readable medium.new) }
{
    match medium.len() {
        Ok(len) => Ok(len),
        Err(Failed) => Err(LoadFault::ReadFault),
    }
}

// Where the first page with a set bit stands that a file of this length hasn't whole.
#[tactic(auto, using(crate::proofs::CutPages::cut_first, crate::proofs::CutPages::cut_here, crate::proofs::CutPages::cut_on, crate::proofs::CutPages::cut_none))]
fn cut_page(bits: &Bitmap, pages: u32, first: u64, len: u64) -> Option<u64>
    requires pages { bits.now.pages ≡ pages }
    requires most { pages ≤ 2048 }
    requires place { first ≤ 2 ^ 31 }
    ensures { result ≡ cut_page len first bits.now.bits }
{
    let _whole = bits.byte_len();
    for p in 0..pages {
        let at = first + PAGE as u64 * u64::from(p);
        if is_cut(bits, p, at, len) {
            return Some(at);
        }
    }
    None
}

// Whether the bit of a page is set, and a file of this length hasn't the page whole, which stands at a place.
fn is_cut(bits: &Bitmap, p: u32, at: u64, len: u64) -> bool
    requires { p < bits.now.pages }
    ensures { result ≡ is_cut len at (slice_index_or bits.now.bits p false) }
{
    bits.test(p) && len.saturating_sub(at) < PAGE as u64
}
