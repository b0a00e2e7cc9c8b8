ghost use Rattle.std.specs.Prelude.{◌≡◌, ◌≤◌, ◌<◌, ◌+◌, ◌-◌, ◌^◌, ◌++◌, take, drop, replicate, List, ℕ, length, max, map, IsOk, OnOk, OnErr, vec_capacity};
ghost use Rattle.medium.specs.Bytes.{written};
ghost use Rattle.medium.specs.Log.{replayed, HasBytes, EndsBy, marked, span, kept_after};

use std::alloc::AllocError;

/// A write of a file in memory. Its bytes stand behind those of the writes before it.
#[derive(Clone, Copy, Debug, PartialEq, Eq)]
pub(crate) struct Write {
    pub(crate) at: usize,
    pub(crate) len: usize,
    /// A sync came behind this write, before the next.
    pub(crate) synced: bool,
}

/// Puts the bytes at their place, and zeros in a gap before it.
pub(crate) fn place(file: &mut Vec<u8>, at: usize, bytes: &[u8]) -> Result<(), AllocError>
    requires { at + length bytes.now < 2 ^ 64 }
    ensures written { OnOk result (file.new.items ≡ written at bytes.now file.old.items) }
    ensures succeeds { max (length file.old.items) (at + length bytes.now) ≤ vec_capacity file.old → IsOk result }
    ensures capacity { vec_capacity file.old ≤ vec_capacity file.new }
{
    grow(file, at + bytes.len())?;
    put(file, at, bytes);
    Ok(())
}

/// Makes the file long enough, by zeros.
fn grow(file: &mut Vec<u8>, end: usize) -> Result<(), AllocError>
    ensures grown { OnOk result (file.new.items ≡ file.old.items ++ replicate (end - length file.old.items) 0) }
    ensures succeeds { max (length file.old.items) end ≤ vec_capacity file.old → IsOk result }
    ensures capacity { vec_capacity file.old ≤ vec_capacity file.new }
{
    if end > file.len() {
        file.resize(end, 0)?;
    }
    Ok(())
}

/// Puts the bytes at their place in the file.
fn put(file: &mut [u8], at: usize, bytes: &[u8])
    requires { at + length bytes.now ≤ length file.old }
    ensures { file.new ≡ take at file.old ++ (bytes.now ++ drop (at + length bytes.now) file.old) }
{
    file[at..at + bytes.len()].copy_from_slice(bytes);
}

/// Does the writes of a log again.
pub(crate) fn replay(file: &mut Vec<u8>, log: &[Write], joined: &[u8]) -> Result<(), AllocError>
    requires bytes { HasBytes log.now joined.now }
    requires ends { EndsBy (2 ^ 64 - 1) (map span log.now) }
    ensures { OnOk result (file.new.items ≡ replayed log.now joined.now file.old.items) }
{
    let mut rest = joined;
    for w in log {
        let (bytes, after) = rest.split_at(w.len);
        place(file, w.at, bytes)?;
        rest = after;
    }
    Ok(())
}

/// Does the kept writes of a log again, with the bytes that are there at present.
pub(crate) fn keep(
    file: &mut Vec<u8>,
    log: &[Write],
    kept: &[bool],
    present: &[u8],
) -> Result<(), AllocError>
    requires members { length kept.now ≡ length log.now }
    requires ends { EndsBy (length present.now) (map span log.now) }
    ensures { OnOk result (file.new.items ≡ kept_after (map span log.now) kept.now present.now file.old.items) }
{
    for (i, w) in log.iter().enumerate() {
        if kept[i] {
            place(file, w.at, &present[w.at..w.at + w.len])?;
        }
    }
    Ok(())
}

/// Marks the last write.
pub(crate) fn mark(log: &mut Vec<Write>)
    ensures marked { log.new.items ≡ marked log.old.items }
    ensures capacity { vec_capacity log.new ≡ vec_capacity log.old }
{
    let n = log.len();
    if n > 0 {
        log[n - 1].synced = true;
    }
}
