ghost use Rattle.std.specs.Prelude.{◌≡◌, ◌≤◌, ◌^◌};
ghost use Rattle.mapped_ram_header.specs.Places.{places_of};

use crate::{HEADER_LEN, Places};
use ram_block::PAGE;

/// The pages of a block begin at a multiple of this place.
pub const PAGES_ALIGN: u64 = 0x10_0000;

/// The places of a block of so many pages whose header begins at a place.
pub fn places(header: u64, pages: u32) -> Places
    requires header { header ≤ 2 ^ 32 }
    requires some_page { 1 ≤ pages }
    requires pages { pages ≤ 2048 }
    ensures { result ≡ places_of header pages }
{
    let bitmap = header + HEADER_LEN as u64;
    let bitmap_len = 8 * u64::from(pages).div_ceil(64);
    let first_page = (bitmap + bitmap_len).next_multiple_of(PAGES_ALIGN);
    Places {
        header,
        bitmap,
        pages: first_page,
        end: first_page + PAGE as u64 * u64::from(pages),
    }
}
