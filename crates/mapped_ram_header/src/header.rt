ghost use Rattle.std.specs.Prelude.{◌≡◌, ◌≤◌, ◌+◌, ◌↔◌, take, drop, length, IsOk};
ghost use Rattle.std.specs.Int.{w32, w64, from_be_bytes, to_be_bytes};
ghost use Rattle.mapped_ram_header.specs.Header.{header_bytes, header_fault};

use crate::{HeaderFault, Places};
use ram_block::PAGE;

/// The bytes of a mapped-ram header.
pub const HEADER_LEN: usize = 28;

/// The version of a mapped-ram header.
pub const HEADER_VERSION: u32 = 1;

/// The mapped-ram header of a block: version, page size, place of the bitmap, place of the pages.
pub fn put_header(places: &Places) -> [u8; HEADER_LEN]
    ensures { result ≡ header_bytes places.now }
{
    let mut bytes = [0; HEADER_LEN];
    bytes[0..4].copy_from_slice(&HEADER_VERSION.to_be_bytes());
    bytes[4..12].copy_from_slice(&(PAGE as u64).to_be_bytes());
    bytes[12..20].copy_from_slice(&places.bitmap.to_be_bytes());
    bytes[20..28].copy_from_slice(&places.pages.to_be_bytes());
    bytes
}

/// Whether these are a block's mapped-ram header: the first field that differs, if one does.
pub fn get_header(bytes: &[u8; HEADER_LEN], places: &Places) -> Result<(), HeaderFault>
    ensures first_fault { result ≡ header_fault bytes.now places.now }
    ensures read_back { IsOk result ↔ (bytes.now ≡ header_bytes places.now) }
{
    let version = u32_at(bytes, 0);
    if version != HEADER_VERSION {
        return Err(HeaderFault::Version(version));
    }
    let page = u64_at(bytes, 4);
    if page != PAGE as u64 {
        return Err(HeaderFault::PageSize(page));
    }
    let bitmap = u64_at(bytes, 12);
    if bitmap != places.bitmap {
        return Err(HeaderFault::BitmapOffset(bitmap));
    }
    let pages = u64_at(bytes, 20);
    if pages != places.pages {
        return Err(HeaderFault::PagesOffset(pages));
    }
    Ok(())
}

// The number in the four bytes from a place on.
fn u32_at(bytes: &[u8], at: usize) -> u32
    requires { at + 4 ≤ length bytes.now }
    ensures number { result ≡ from_be_bytes w32 (take 4 (drop at bytes.now)) }
    ensures back { to_be_bytes w32 result ≡ take 4 (drop at bytes.now) }
{
    let mut field = [0; 4];
    field.copy_from_slice(&bytes[at..at + 4]);
    u32::from_be_bytes(field)
}

// The number in the eight bytes from a place on.
fn u64_at(bytes: &[u8], at: usize) -> u64
    requires { at + 8 ≤ length bytes.now }
    ensures number { result ≡ from_be_bytes w64 (take 8 (drop at bytes.now)) }
    ensures back { to_be_bytes w64 result ≡ take 8 (drop at bytes.now) }
{
    let mut field = [0; 8];
    field.copy_from_slice(&bytes[at..at + 8]);
    u64::from_be_bytes(field)
}
