ghost use Rattle.std.specs.Prelude.{◌≡◌, ◌%◌, ◌^◌};
ghost use Rattle.std.specs.List.{sum_by};
ghost use Rattle.std.specs.Int.{from_le_bytes, w64};
ghost use Rattle.flat_machine.specs.Page.{joined};
ghost use Rattle.flat_machine.specs.Sum.{ram_sum, sum_of_words};

use crate::Machine;
use ram_block::PageBuf;

impl Machine {
    /// The sum of RAM's little-endian words of eight bytes, modulo 2^64.
    pub fn ram_sum(&self) -> u64
        ensures { result ≡ ram_sum self.now }
    {
        sum_pages(&self.ram)
    }
}

// The sum of the pages, one after another, modulo 2^64.
fn sum_pages(pages: &[PageBuf]) -> u64
    ensures { result ≡ sum_of_words (joined pages.now) % 2 ^ 64 }
{
    let mut sum = 0u64;
    for page in pages {
        sum = sum.wrapping_add(sum_bytes(page.bytes()));
    }
    sum
}

fn sum_bytes(bytes: &[u8]) -> u64
    ensures { result ≡ sum_of_words bytes.now % 2 ^ 64 }
{
    let (words, _) = bytes.as_chunks::<8>();
    sum_words(words)
}

fn sum_words(words: &[[u8; 8]]) -> u64
    ensures { result ≡ sum_by (from_le_bytes w64) words.now % 2 ^ 64 }
{
    let mut sum = 0u64;
    for word in words {
        sum = sum.wrapping_add(u64::from_le_bytes(*word));
    }
    sum
}
