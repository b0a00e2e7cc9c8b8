ghost use Rattle.std.specs.Prelude.{◌≡◌, ◌≤◌, ◌+◌, length};
ghost use Rattle.std.specs.Int.{w16, w32, w64, from_le_bytes};
ghost use Rattle.ram_block.specs.AddressMap.{width_bytes};
ghost use Rattle.ram_block.specs.declared.page_buf.TheConstants.{PAGE};
ghost use Rattle.rv64i_step.specs.Access.{low_bytes};
ghost use Rattle.flat_machine.specs.Cell.{page_after, page_gives};
ghost use Rattle.flat_machine.specs.Fits.{FitsPage, IsWordIfFetched};
ghost use Rattle.flat_machine.specs.Page.{number_at, with_number};

use ram_block::{PAGE, PageBuf, Place, Width};
use rv64i_step::{Request, amo_result, low_bytes_of};

/// A page's part of an event: answers the word fetched, the value loaded, or the value that an AMO found, and 0 to
/// a store.
#[tactic(auto, unfolding(crate::specs::Cell::page_gives, crate::specs::Cell::page_after))]
#[inline(always)]
pub fn apply_to_page(page: &mut PageBuf, request: &Request) -> u64
    requires { FitsPage request.now }
    ensures gives { result ≡ page_gives request.now page.old }
    ensures after { page.new ≡ page_after request.now page.old }
    ensures word { IsWordIfFetched request.now result }
    ensures length { length page.new ≡ PAGE }
{
    match *request {
        Request::Fetch { off, .. } => number_in(page.bytes(), off as usize, Width::Four),
        Request::Load {
            place: Place::Ram { off, .. },
            width,
        } => number_in(page.bytes(), off as usize, width),
        Request::Store {
            place: Place::Ram { off, .. },
            width,
            value,
        } => {
            put_number(page.bytes_mut(), off as usize, width, value);
            0
        }
        Request::Amo {
            place: Place::Ram { off, .. },
            width,
            op,
            value,
        } => {
            let found = number_in(page.bytes(), off as usize, width);
            let written = amo_result(op, width, found, low_bytes_of(width, value));
            put_number(page.bytes_mut(), off as usize, width, written);
            found
        }
        _ => unreachable!(),
    }
}

// The number that stands at a place.
#[tactic(auto, unfolding(crate::specs::Page::number_at))]
#[inline(always)]
fn number_in(bytes: &[u8], off: usize, width: Width) -> u64
    requires { off + width_bytes width ≤ length bytes.now }
    ensures number { result ≡ number_at width bytes.now off }
    ensures fits { result ≡ low_bytes width result }
{
    match width {
        Width::One => u64::from(bytes[off]),
        Width::Two => u64::from(half_in(&bytes[off..off + 2])),
        Width::Four => u64::from(word_in(&bytes[off..off + 4])),
        Width::Eight => double_in(&bytes[off..off + 8]),
    }
}

#[inline(always)]
fn half_in(bytes: &[u8]) -> u16
    requires { length bytes.now ≡ 2 }
    ensures { result ≡ from_le_bytes w16 bytes.now }
{
    let mut field = [0; 2];
    field.copy_from_slice(bytes);
    u16::from_le_bytes(field)
}

#[inline(always)]
fn word_in(bytes: &[u8]) -> u32
    requires { length bytes.now ≡ 4 }
    ensures { result ≡ from_le_bytes w32 bytes.now }
{
    let mut field = [0; 4];
    field.copy_from_slice(bytes);
    u32::from_le_bytes(field)
}

#[inline(always)]
fn double_in(bytes: &[u8]) -> u64
    requires { length bytes.now ≡ 8 }
    ensures { result ≡ from_le_bytes w64 bytes.now }
{
    let mut field = [0; 8];
    field.copy_from_slice(bytes);
    u64::from_le_bytes(field)
}

// Writes the low bytes of a number at a place.
#[tactic(auto, unfolding(crate::specs::Page::with_number))]
#[inline(always)]
fn put_number(bytes: &mut [u8], off: usize, width: Width, value: u64)
    requires { off + width_bytes width ≤ length bytes.old }
    ensures { bytes.new ≡ with_number width bytes.old off (low_bytes width value) }
{
    let low = low_bytes_of(width, value);
    match width {
        Width::One => bytes[off] = low as u8,
        Width::Two => bytes[off..off + 2].copy_from_slice(&(low as u16).to_le_bytes()),
        Width::Four => bytes[off..off + 4].copy_from_slice(&(low as u32).to_le_bytes()),
        Width::Eight => bytes[off..off + 8].copy_from_slice(&low.to_le_bytes()),
    }
}
