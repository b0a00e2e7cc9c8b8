ghost use Rattle.std.specs.Prelude.{◌≡◌, ◌≤◌, ◌≤ℤ◌, pos, length, Some, IfOk, IfSome, OnOk};
ghost use Rattle.std.specs.Io.KnownBytes.{Keeps};

use medium::Failed;
use std::fs::OpenOptions;
use std::io::{ErrorKind, Read, Seek, SeekFrom};
use std::os::fd::AsRawFd;
use std::rt::Files;

/// How many descriptors are standard: 0, 1 and 2, the input, the output and the errors.
pub(crate) const STANDARD: i32 = 3;

/// Opens a file that gets no standard descriptor: what is printed would go into it.
pub(crate) fn open_apart<R: Files>(rt: &R, path: &str, how: &OpenOptions) -> Result<R::File, Failed>
where
    R::File: AsRawFd,
    ensures apart { IfOk result (λ file. IfSome (R.File.AsRawFd.raw_fd file) (λ descriptor. pos 3 ≤ℤ descriptor)) }
{
    let file = how.open(rt, path).map_err(|_| Failed)?;
    if file.as_raw_fd() < STANDARD {
        return Err(Failed);
    }
    Ok(file)
}

/// Goes to a place of the file. It fails where a file has no places, as a pipe, and where it doesn't keep the one
/// that it is told, as some devices.
pub(crate) fn go_to<F: Seek>(file: &mut F, at: u64) -> Result<(), Failed>
    ensures place { OnOk result (IfSome (F.stream_position file.old) (λ _. F.stream_position file.new ≡ Some at)) }
    ensures same_bytes { Keeps (F.stream_bytes file.old) (F.stream_bytes file.new) }
{
    let reached = file.seek(SeekFrom::Start(at)).map_err(|_| Failed)?;
    if reached == at { Ok(()) } else { Err(Failed) }
}

/// How many bytes can be read from the start of the file on. It fails where the end that the system names isn't
/// one, so that a device or a file of the system that has bytes never counts as empty.
pub(crate) fn whole_len<F: Read + Seek>(file: &mut F) -> Result<u64, Failed>
    ensures { IfOk result (λ len. IfSome (F.stream_position file.old) (λ _. IfSome (F.stream_bytes file.old) (λ bytes. len ≡ length bytes))) }
{
    let end = file.seek(SeekFrom::End(0)).map_err(|_| Failed)?;
    match read_some(file, &mut [0])? {
        0 => Ok(end),
        _ => Err(Failed),
    }
}

/// Fills the buffer from here on, or as much of it as there is.
pub(crate) fn read_whole<F: Read>(file: &mut F, buf: &mut [u8]) -> Result<usize, Failed>
    ensures { IfOk result (λ n. n ≤ length buf.new) }
{
    let mut filled = 0;
    while filled < buf.len() {
        let n = read_some(file, &mut buf[filled..])?;
        if n == 0 {
            break;
        }
        filled += n;
    }
    Ok(filled)
}

/// Reads once, and again as often as a signal interrupts it.
pub(crate) fn read_some<F: Read>(file: &mut F, buf: &mut [u8]) -> Result<usize, Failed>
    ensures { IfOk result (λ n. n ≤ length buf.new) }
{
    for _ in 0..u64::MAX {
        match file.read(buf) {
            Ok(n) => return Ok(n),
            Err(e) if e.kind() == ErrorKind::Interrupted => {}
            Err(_) => return Err(Failed),
        }
    }
    Err(Failed)
}
