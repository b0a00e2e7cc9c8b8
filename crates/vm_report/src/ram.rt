ghost use Rattle.std.specs.Prelude.{◌≡◌, ◌^◌, ◌<◌, ◌≤◌, length, All};
ghost use Rattle.std.specs.List.{count_by, list_all};
ghost use Rattle.vm_report.specs.Ram.{is_nonzero, is_zero_word};

use ram_block::{PAGE, PageBuf};

/// How many pages aren't all zeros.
pub(crate) fn count_nonzero(pages: &[PageBuf]) -> u32
    requires { length pages.now < 2 ^ 32 }
    ensures count { result ≡ count_by is_nonzero pages.now }
    ensures whole { All (λ page. length page ≡ PAGE) pages.now }
{
    let mut count = 0;
    for page in pages {
        if is_nonzero(page.bytes()) {
            count += 1;
        }
    }
    count
}

// Whether some byte of a page isn't 0, by its words.
#[tactic(auto, using(crate::proofs::Zeros::nonzero_words))]
fn is_nonzero(page: &[u8]) -> bool
    requires { length page.now ≡ PAGE }
    ensures { result ≡ is_nonzero page.now }
{
    let (words, _) = page.as_chunks::<8>();
    !are_zero(words)
}

fn are_zero(words: &[[u8; 8]]) -> bool
    ensures { result ≡ list_all is_zero_word words.now }
{
    for word in words {
        if u64::from_le_bytes(*word) != 0 {
            return false;
        }
    }
    true
}
