ghost use Rattle.std.specs.Prelude.{◌≡◌, ◌≤◌, ◌<◌, ◌+◌, ◌^◌, ◌*◌, ℕ, suc, All, Ok, Err, IfOk, IfErr, length, vec_len};
ghost use Rattle.ram_block.specs.declared.page_buf.TheConstants.{PAGE};
ghost use Rattle.flat_machine.specs.Page.{joined, with_page};
ghost use Rattle.snap_layer.specs.Reading.{number_in, ram_in};
ghost use Rattle.snap_layer.specs.declared.format.TheConstants.{ENTRY_LEN, FRONT_LEN};

use crate::LayerRefusal;
use crate::format::{ENTRY_LEN, FRONT_LEN};
use crate::piece::{number32, piece};
use ram_block::{PAGE, PageBuf};

/// Puts the pages of a layer in the place of the base's.
pub(crate) fn read_pages(
    layer: &[u8],
    count: u32,
    ram: &mut Vec<PageBuf>,
) -> Result<(), LayerRefusal>
    requires most { vec_len ram.old ≤ 2 ^ 14 }
    requires count { count ≤ vec_len ram.old }
    requires whole { All (λ page. length page ≡ PAGE) ram.old.items }
    ensures ram { IfOk result (λ _. ram_in layer.now (vec_len ram.old) count 0 FRONT_LEN (joined ram.old.items) ≡ Ok (joined ram.new.items)) }
    ensures refused { IfErr result (λ refusal. ram_in layer.now (vec_len ram.old) count 0 FRONT_LEN (joined ram.old.items) ≡ Err refusal) }
    ensures pages { vec_len ram.new ≡ vec_len ram.old }
    ensures whole { All (λ page. length page ≡ PAGE) ram.new.items }
{
    let mut least = 0;
    for i in 0..count as usize {
        match read_page(layer, FRONT_LEN + ENTRY_LEN * i, least, ram) {
            Ok(number) => least = number + 1,
            Err(refusal) => return Err(refusal),
        }
    }
    Ok(())
}

// Puts the page that begins at a place in the place of the base's, and answers its number.
#[tactic(auto, using(crate::proofs::PageRead::number_refused, crate::proofs::PageRead::bytes_cut, crate::proofs::PageRead::page_put))]
fn read_page(
    layer: &[u8],
    at: usize,
    least: u32,
    ram: &mut Vec<PageBuf>,
) -> Result<u32, LayerRefusal>
    requires at { at ≤ 2 ^ 32 }
    requires most { vec_len ram.old ≤ 2 ^ 14 }
    requires whole { All (λ page. length page ≡ PAGE) ram.old.items }
    ensures ram { IfOk result (λ p. (n : ℕ) → ram_in layer.now (vec_len ram.old) (suc n) least at (joined ram.old.items) ≡ ram_in layer.now (vec_len ram.old) n (p + 1) (at + ENTRY_LEN) (joined ram.new.items)) }
    ensures refused { IfErr result (λ refusal. (n : ℕ) → ram_in layer.now (vec_len ram.old) (suc n) least at (joined ram.old.items) ≡ Err refusal) }
    ensures number { IfOk result (λ p. p < vec_len ram.old) }
    ensures pages { vec_len ram.new ≡ vec_len ram.old }
    ensures whole { All (λ page. length page ≡ PAGE) ram.new.items }
{
    let number = read_number(layer, at, least, ram.len() as u32)?;
    let bytes = piece(layer, at + 4, PAGE)?;
    replace(&mut ram[number as usize], bytes);
    Ok(number)
}

// The number of the page that begins at a place.
#[tactic(auto, unfolding(crate::specs::Reading::number_in))]
fn read_number(layer: &[u8], at: usize, least: u32, total: u32) -> Result<u32, LayerRefusal>
    ensures answer { result ≡ number_in layer.now total least at }
    ensures inside { IfOk result (λ p. p < total) }
{
    let number = number32(layer, at)?;
    if number < least || number >= total {
        let at = at as u64;
        return Err(LayerRefusal::Page { at, v: number });
    }
    Ok(number)
}

// Makes the bytes of a page these.
fn replace(page: &mut PageBuf, bytes: &[u8])
    requires { length bytes.now ≡ PAGE }
    ensures bytes { page.new ≡ bytes.now }
    ensures length { length page.new ≡ PAGE }
{
    page.bytes_mut().copy_from_slice(bytes);
}
