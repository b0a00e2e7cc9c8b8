ghost use Rattle.std.specs.Prelude.{◌≡◌, ◌<◌, ◌≤◌, ◌+◌, ◌-◌, ◌*◌, ◌++◌, ◌^◌, pos, neg_ℤ, ◌≤ℤ◌, ◌<ℤ◌, OnOk, vec_len};
ghost use Rattle.guest_asm.specs.Bytes.{bytes_given, range_of, wrapped};
ghost use Rattle.guest_asm.specs.Directive.{row_of};
ghost use Rattle.guest_asm.specs.Facts.{IsInRange};

use crate::Mnemonic;
use std::alloc::AllocError;

/// A directive that gives the bytes of a number.
#[derive(Clone, Copy)]
pub(crate) enum Directive {
    Byte,
    Word,
    Dword,
}

impl Directive {
    // How it is written, how many bytes its number has, the least number, and how many numbers so many bytes have.
    fn row(self) -> (&'static str, usize, i128, u128)
        ensures text { result.0.now ≡ (row_of self).text }
        ensures bytes { result.1 ≡ (row_of self).bytes }
        ensures few { result.1 ≤ 8 }
        ensures least { result.2 ≡ neg_ℤ (pos (2 ^ (8 * (row_of self).bytes - 1))) }
        ensures numbers { result.3 ≡ 2 ^ (8 * (row_of self).bytes) }
        ensures some { 1 ≤ result.3 }
        ensures most { result.3 ≤ 2 ^ 64 }
        ensures low { neg_ℤ (pos result.3) ≤ℤ result.2 }
    {
        match self {
            Directive::Byte => (".byte", 1, -128, 256),
            Directive::Word => (".word", 4, -2147483648, 4294967296),
            Directive::Dword => (".dword", 8, -9223372036854775808, 18446744073709551616),
        }
    }

    /// How it is written.
    pub(crate) fn text(self) -> &'static str
        ensures { result.now ≡ (row_of self).text }
    {
        self.row().0
    }

    /// How many bytes it gives.
    pub(crate) fn bytes(self) -> usize
        ensures bytes { result ≡ (row_of self).bytes }
        ensures few { result ≤ 8 }
    {
        self.row().1
    }

    /// The least and the greatest number.
    pub(crate) fn range(self) -> (i128, i128)
        ensures least { result.0 ≡ (range_of (Mnemonic.Data self)).least }
        ensures most { result.1 ≡ (range_of (Mnemonic.Data self)).most }
    {
        let (_, _, least, numbers) = self.row();
        (least, numbers as i128 - 1)
    }

    /// Puts the bytes of a number at the end of the bytes.
    #[tactic(auto, using(crate::proofs::Directives::lowest_bytes))]
    pub(crate) fn put(self, bytes: &mut Vec<u8>, number: i128) -> Result<(), AllocError>
        requires { IsInRange (Mnemonic.Data self) number }
        ensures bytes { OnOk result (bytes.new.items ≡ bytes.old.items ++ bytes_given (Mnemonic.Data self) number) }
        ensures len { OnOk result (vec_len bytes.new ≡ vec_len bytes.old + (row_of self).bytes) }
    {
        let (_, count, _, numbers) = self.row();
        let low = low_bits(number, numbers) as u64;
        bytes.extend_from_slice(&low.to_le_bytes()[..count])
    }
}

// The number, or a negative one's two's complement to a modulus.
fn low_bits(number: i128, modulus: u128) -> u128
    requires width { modulus ≤ 2 ^ 64 }
    requires least { neg_ℤ (pos modulus) ≤ℤ number }
    requires most { number <ℤ pos modulus }
    ensures low { result ≡ wrapped modulus number }
    ensures small { result < modulus }
{
    if number < 0 {
        (number + modulus as i128) as u128
    } else {
        number as u128
    }
}
