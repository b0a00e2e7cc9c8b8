ghost use Rattle.std.specs.Prelude.{◌≡◌, ◌<◌, ◌≤◌, ◌+◌, ℕ, List, [], Some, length, vec_len, IfOk, IfErr, IsOk};
ghost use Rattle.medium.specs.Count.{HasRisen};
ghost use Rattle.medium.specs.Members.{source_state};
ghost use Rattle.image_file.specs.Image.{raw_of, Answers, behind, RefusesOnly, RefusesNothing, Moves, ReadsOn, IsReadToEnd};
ghost use Rattle.image_file.specs.declared.image_fault.ImageFault.TheVariants.{ReadFault as read_fault};

use crate::{ImageFault, ImageRefusal};
use medium::Source;
use std::alloc::{AllocError, Global};

/// The most bytes of an image.
pub const MOST_IMAGE: u32 = 134_217_728;

/// How many bytes are asked for, or put in place, at once.
pub(crate) const PIECE: usize = 65_536;

/// All bytes of the source, of which there may be at most `limit`. No more than one byte more is read.
pub fn read_raw<S: Source>(alloc: Global, source: &mut S, limit: u32) -> Result<Vec<u8>, ImageFault>
    requires { limit ≤ MOST_IMAGE }
    ensures answer { (bytes : List ℕ) → S.left source.old ≡ Some bytes → Answers (λ all. all.items) (raw_of bytes limit) result }
    ensures within { IfOk result (λ all. vec_len all ≤ limit) }
    ensures refused { IfErr result (λ e. RefusesOnly (ImageRefusal.TooLong (limit + 1)) e) }

    ensures read { ReadsOn (limit + 1) (source_state S.Source source.old) (source_state S.Source source.new) }
    ensures read_to_end { IsReadToEnd result → (bytes : List ℕ) → S.left source.old ≡ Some bytes → S.left source.new ≡ Some (behind (limit + 1) bytes) }
    ensures whole { IsOk result → (bytes : List ℕ) → S.left source.old ≡ Some bytes → S.left source.new ≡ Some [] }

    ensures fault { result ≡ Err read_fault → HasRisen (S.faults source.old) (S.faults source.new) }
{
    let most = limit as usize + 1;
    let mut piece = zeros(alloc, PIECE)?;
    let mut all = Vec::new(alloc);
    while all.len() < most {
        let room = PIECE.min(most - all.len());
        if next_piece(source, &mut all, &mut piece[..room])? == 0 {
            return Ok(all);
        }
    }
    Err(ImageFault::Refused(ImageRefusal::TooLong(most as u64)))
}

// Reads once more, and answers how many bytes came: none exactly at the end.
fn next_piece<S: Source>(
    source: &mut S,
    all: &mut Vec<u8>,
    piece: &mut [u8],
) -> Result<usize, ImageFault>
    requires { 0 < length piece.old }
    ensures within { IfOk result (λ n. n ≤ length piece.old) }
    ensures moved { IfOk result (λ n. Moves (S.left source.old) (S.left source.new) n all.old.items all.new.items) }
    ensures len { IfOk result (λ n. vec_len all.new ≡ vec_len all.old + n) }
    ensures refused { IfErr result RefusesNothing }

    ensures read { ReadsOn (length piece.old) (source_state S.Source source.old) (source_state S.Source source.new) }
    ensures fault { result ≡ Err read_fault → HasRisen (S.faults source.old) (S.faults source.new) }
{
    let Ok(n) = source.read(piece) else {
        return Err(ImageFault::ReadFault);
    };
    all.extend_from_slice(&piece[..n])?;
    Ok(n)
}

/// So many zeros. It is a function of its own, so that no proof writes them out.
pub(crate) fn zeros(alloc: Global, n: usize) -> Result<Vec<u8>, AllocError>
    ensures { IfOk result (λ v. vec_len v ≡ n) }
{
    vec![in alloc; 0; n]
}
