ghost use Rattle.std.specs.Prelude.{◌≡◌, ◌≤◌, ◌+◌, ◌^◌, length, take, drop};
ghost use Rattle.std.specs.Int.{w32, w64, from_be_bytes};
ghost use Rattle.mig_stream.specs.Text.{be32, be64, be32_at, be64_at};
ghost use Rattle.mig_stream.specs.Pieces.{ReadsBack};

/// The number in four bytes, the highest first: of a piece that `put_be32` appended, what was put.
pub fn get_be32(bytes: &[u8; 4]) -> u32
    ensures number { result ≡ from_be_bytes w32 bytes.now }
    ensures text { be32 result ≡ bytes.now }
    ensures read_back { ReadsBack be32 (2 ^ 32) bytes.now result }
{
    u32::from_be_bytes(*bytes)
}

/// The number in eight bytes, the highest first: of a piece that `put_be64` appended, what was put.
pub fn get_be64(bytes: &[u8; 8]) -> u64
    ensures number { result ≡ from_be_bytes w64 bytes.now }
    ensures text { be64 result ≡ bytes.now }
    ensures read_back { ReadsBack be64 (2 ^ 64) bytes.now result }
{
    u64::from_be_bytes(*bytes)
}

/// The number in the four bytes from a place on, the highest first.
pub fn be32_at(bytes: &[u8], at: usize) -> u32
    requires { at + 4 ≤ length bytes.now }
    ensures number { result ≡ be32_at bytes.now at }
    ensures text { be32 result ≡ take 4 (drop at bytes.now) }
{
    let mut four = [0; 4];
    four.copy_from_slice(&bytes[at..at + 4]);
    get_be32(&four)
}

/// The number in the eight bytes from a place on, the highest first.
pub fn be64_at(bytes: &[u8], at: usize) -> u64
    requires { at + 8 ≤ length bytes.now }
    ensures number { result ≡ be64_at bytes.now at }
    ensures text { be64 result ≡ take 8 (drop at bytes.now) }
{
    let mut eight = [0; 8];
    eight.copy_from_slice(&bytes[at..at + 8]);
    get_be64(&eight)
}
