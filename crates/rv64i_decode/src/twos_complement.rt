ghost use Rattle.std.specs.Prelude.{◌≡◌, ◌<◌, ◌≤◌, ◌*◌, ◌^◌, pos, ◌≤ℤ◌, ◌<ℤ◌, neg_ℤ};
ghost use Rattle.rv64i_decode.specs.Decode.{twos_complement};
ghost use Rattle.rv64i_decode.specs.Immediate.{IsTwosComplement};

/// The number whose two's complement is `bits`, where the sign bit counts `half`.
#[inline(always)]
pub(crate) fn sign_extend(bits: u32, half: u32) -> i64
    requires sign { half ≤ 2 ^ 31 }
    requires width { bits < 2 * half }
    ensures relation { IsTwosComplement half bits result }
    ensures value { result ≡ twos_complement half bits }
{
    if bits < half {
        i64::from(bits)
    } else {
        i64::from(bits) - 2 * i64::from(half)
    }
}

/// The two's complement of a number, where the sign bit counts `half`.
pub(crate) fn low_bits(value: i64, half: u32) -> u32
    requires sign { half ≤ 2 ^ 31 }
    requires least { neg_ℤ (pos half) ≤ℤ value }
    requires greatest { value <ℤ pos half }
    ensures { IsTwosComplement half result value }
{
    if value < 0 {
        (value + 2 * i64::from(half)) as u32
    } else {
        value as u32
    }
}
