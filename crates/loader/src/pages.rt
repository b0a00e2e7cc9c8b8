ghost use Rattle.std.specs.Prelude.{◌≡◌, ◌≢◌, None, ◌≤◌, ◌<◌, ◌+◌, ◌*◌, ◌^◌, ℕ, Bool, List, Some, Ok, Err, IfOk, OnOk, length, take, drop, nat_lt, false, vec_len, true, ◌-◌, ◌++◌, ◌∷◌, []};
ghost use Rattle.medium.specs.Count.{HasRisen};
ghost use Rattle.medium.specs.Members.{file_state};
ghost use Rattle.medium.specs.States.{Leaves};
ghost use Rattle.ram_block.specs.declared.page_buf.TheConstants.{PAGE};
ghost use Rattle.ram_block.specs.Page.{zero_page};
ghost use Rattle.loader.specs.Frame.{cut_page, is_cut};
ghost use Rattle.loader.specs.Loaded.{block_pages, page_by};
ghost use Rattle.loader.specs.declared.refusal.LoadFault.{LoadFault};
ghost use Rattle.loader.specs.declared.refusal.LoadFault.TheVariants.{NoMemory, ReadFault, Refused};
ghost use Rattle.loader.specs.declared.refusal.Refusal.{Refusal};

use crate::LoadFault;
use crate::piece::cut;
use medium::Readable;
use mig_stream::FieldReader;
use page_bitmap::Bitmap;
use ram_block::{PAGE, PageBuf};
use std::alloc::Global;

/// The pages of a block by their bits, put behind those so far.
#[tactic(auto, using(crate::proofs::PagesRead::pages_first, crate::proofs::CutPages::cut_first))]
pub(crate) fn read_pages<M: Readable>(
    alloc: Global,
    medium: &mut M,
    first: u64,
    bits: &Bitmap,
    pages: u32,
    ram: &mut Vec<PageBuf>,
) -> Result<(), LoadFault>
    requires pages { bits.now.pages ≡ pages }
    requires most { pages ≤ 2048 }
    requires place { first ≤ 2 ^ 31 }
    ensures pages { (file : List ℕ) → M.told medium.old ≡ Some file → OnOk result (ram.new.items ≡ ram.old.items ++ block_pages file first bits.now.bits) }
    ensures count { OnOk result (vec_len ram.new ≡ vec_len ram.old + pages) }
    ensures whole { (file : List ℕ) (refusal : Refusal) → M.told medium.old ≡ Some file → cut_page (length file) first bits.now.bits ≡ None → result ≢ Err (Refused refusal) }
    ensures read_fault { result ≡ Err ReadFault → HasRisen (M.faults medium.old) (M.faults medium.new) }
    ensures leaves { Leaves (file_state M.Readable medium.old) (file_state M.Readable medium.new) }
{
    let _whole = bits.byte_len();
    for p in 0..pages {
        let at = first + PAGE as u64 * u64::from(p);
        if let Err(fault) = read_page(alloc, medium, at, bits.test(p), ram) {
            return Err(fault);
        }
    }
    Ok(())
}

// A page by its bit, the bytes at its place or zeros, put behind those so far.
fn read_page<M: Readable>(
    alloc: Global,
    medium: &mut M,
    at: u64,
    is_saved: bool,
    ram: &mut Vec<PageBuf>,
) -> Result<(), LoadFault>
    requires { at ≤ 2 ^ 32 }
    ensures page { (file : List ℕ) → M.told medium.old ≡ Some file → OnOk result (ram.new.items ≡ ram.old.items ++ page_by file at is_saved ∷ []) }
    ensures count { OnOk result (vec_len ram.new ≡ vec_len ram.old + 1) }
    ensures whole { (file : List ℕ) → M.told medium.old ≡ Some file → OnOk result (is_cut (length file) at is_saved ≡ false) }
    ensures refused { (file : List ℕ) (refusal : Refusal) → M.told medium.old ≡ Some file → result ≡ Err (Refused refusal) → is_cut (length file) at is_saved ≡ true }
    ensures read_fault { result ≡ Err ReadFault → HasRisen (M.faults medium.old) (M.faults medium.new) }
    ensures leaves { Leaves (file_state M.Readable medium.old) (file_state M.Readable medium.new) }
{
    let page = if is_saved {
        saved_page(alloc, medium, at)?
    } else {
        zero_page(alloc)?
    };
    if ram.push(page).is_err() {
        return Err(LoadFault::NoMemory);
    }
    Ok(())
}

// A page of zeros.
fn zero_page(alloc: Global) -> Result<PageBuf, LoadFault>
    ensures page { IfOk result (λ page. page ≡ zero_page) }
    ensures fault { (fault : LoadFault) → result ≡ Err fault → fault ≡ NoMemory }
{
    match PageBuf::new(alloc) {
        Ok(page) => Ok(page),
        Err(_) => Err(LoadFault::NoMemory),
    }
}

// The bytes of the page that stands at a place.
#[tactic(auto, using(crate::proofs::PagesRead::page_read, crate::proofs::PagesRead::page_cut))]
fn saved_page<M: Readable>(alloc: Global, medium: &mut M, at: u64) -> Result<PageBuf, LoadFault>
    requires { at ≤ 2 ^ 32 }
    ensures page { (file : List ℕ) → M.told medium.old ≡ Some file → IfOk result (λ page. page ≡ take PAGE (drop at file)) }
    ensures whole { (file : List ℕ) → M.told medium.old ≡ Some file → IfOk result (λ _. nat_lt (length file - at) PAGE ≡ false) }
    ensures refused { (file : List ℕ) (refusal : Refusal) → M.told medium.old ≡ Some file → result ≡ Err (Refused refusal) → nat_lt (length file - at) PAGE ≡ true }
    ensures read_fault { result ≡ Err ReadFault → HasRisen (M.faults medium.old) (M.faults medium.new) }
    ensures leaves { Leaves (file_state M.Readable medium.old) (file_state M.Readable medium.new) }
{
    let mut page = zero_page(alloc)?;
    match FieldReader::new(medium, at).take(page.bytes_mut()) {
        Ok(()) => Ok(page),
        Err(fault) => Err(cut(fault)),
    }
}
