ghost use Rattle.std.specs.Prelude.{◌≡◌, length};
ghost use Rattle.std.specs.List.{list_all};
ghost use Rattle.ram_block.specs.declared.page_buf.TheConstants.{PAGE};
ghost use Rattle.bg_saver.specs.Writes.{is_zero_word, is_zeros};

/// Whether the bytes of a page are all 0, by its words.
pub(crate) fn is_zeros(page: &[u8]) -> bool
    requires { length page.now ≡ PAGE }
    ensures { result ≡ is_zeros page.now }
{
    let (words, _) = page.as_chunks::<8>();
    are_zero(words)
}

fn are_zero(words: &[[u8; 8]]) -> bool
    ensures { result ≡ list_all is_zero_word words.now }
{
    for word in words {
        if u64::from_le_bytes(*word) != 0 {
            return false;
        }
    }
    true
}
