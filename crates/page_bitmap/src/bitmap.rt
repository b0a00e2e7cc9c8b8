ghost use Rattle.std.specs.Prelude.{◌≡◌, ℕ, ◌+◌, ◌*◌, ◌%◌, ◌^◌, ◌<◌, ◌≤◌, Bool, List, length, true, false, replicate, IfOk, slice_index_or, slice_set};
ghost use Rattle.page_bitmap.specs.Bitmap.{byte_len_of};

use ram_block::NoMemory;
use std::alloc::Global;
use std::marker::Model;

/// A bit for each page of a block.
#[derive(Drop)]
pub struct Bitmap {
    pages: u32,
    // Page p is bit p mod 8 of byte p / 8.
    bytes: Vec<u8>,
}

impl Model for Bitmap {
    ghost use Rattle.page_bitmap.specs.Bitmap.{BitmapData, bits_of, IsPacked};

    ghost Value = { BitmapData };

    ghost view = { λ b. record { pages = b.pages; bits = bits_of b.pages b.bytes.items } };

    ghost invariant = { λ b. IsPacked b.pages b.bytes.items };
}

impl Bitmap {
    ghost use Rattle.page_bitmap.specs.Bitmap.{byte_len_of, bits_of, bytes_of};

    /// A bitmap with all bits clear.
    pub fn new(alloc: Global, pages: u32) -> Result<Bitmap, NoMemory>
        ensures { IfOk result (λ b. b ≡ record { pages = pages; bits = replicate pages false }) }
    {
        Ok(Bitmap {
            pages,
            bytes: vec![in alloc; 0; bytes_for(pages)]?,
        })
    }

    /// Sets the bit of a page.
    pub fn set(&mut self, p: u32)
        requires { p < self.old.pages }
        ensures bits { self.new ≡ record { pages = self.old.pages; bits = slice_set self.old.bits p true } }
        ensures kept { length self.new.bits ≡ self.new.pages }
    {
        self.bytes[(p / 8) as usize] |= 1 << (p % 8);
    }

    /// Whether the bit of a page is set.
    pub fn test(&self, p: u32) -> bool
        requires { p < self.now.pages }
        ensures bit { result ≡ slice_index_or self.now.bits p false }
        ensures kept { length self.now.bits ≡ self.now.pages }
    {
        self.bytes[(p / 8) as usize] >> (p % 8) & 1 == 1
    }

    /// How many bytes the bitmap has in a file: whole words of 64 bits.
    pub fn byte_len(&self) -> usize
        ensures len { result ≡ byte_len_of self.now.pages }
        ensures kept { length self.now.bits ≡ self.now.pages }
    {
        self.bytes.len()
    }

    /// Writes the bytes that stand in a file. The bits past the last page are 0.
    pub fn put_bytes(&self, out: &mut [u8])
        requires { length out.old ≡ byte_len_of self.now.pages }
        ensures bytes { out.new ≡ bytes_of self.now.pages self.now.bits }
        ensures read_back { bits_of self.now.pages out.new ≡ self.now.bits }
        ensures kept { length self.now.bits ≡ self.now.pages }
    {
        out.copy_from_slice(&self.bytes);
    }

    /// Takes the bits from the bytes of a file: from those that another bitmap of as many pages put, its bits. The
    /// bits past the last page are ignored.
    pub fn get_bytes(&mut self, bytes: &[u8])
        requires { length bytes.now ≡ byte_len_of self.old.pages }
        ensures bits { self.new ≡ record { pages = self.old.pages; bits = bits_of self.old.pages bytes.now } }
        ensures read_back { (put : List Bool) → length put ≡ self.old.pages → bytes.now ≡ bytes_of self.old.pages put → self.new.bits ≡ put }
        ensures kept { length self.new.bits ≡ self.new.pages }
    {
        for (i, byte) in bytes.iter().enumerate() {
            let here = u64::from(self.pages).saturating_sub(8 * i as u64).min(8);
            self.bytes[i] = low_bits(*byte, here as u32);
        }
    }
}

// The bytes of a bitmap of this many pages.
fn bytes_for(pages: u32) -> usize
    ensures { result ≡ byte_len_of pages }
{
    8 * pages.div_ceil(64) as usize
}

// The lowest n bits of a byte.
fn low_bits(byte: u8, n: u32) -> u8
    requires { n ≤ 8 }
    ensures { result ≡ byte % 2 ^ n }
{
    (u16::from(byte) % (1 << n)) as u8
}
