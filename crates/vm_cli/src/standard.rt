ghost use Rattle.std.specs.Prelude.{◌<ℤ◌, pos, IfSome};

use crate::real_file::STANDARD;
use std::fs;
use std::os::fd::AsRawFd;
use std::rt::Files;

/// What can be opened on each machine and neither read nor written by a call, so a standard input or output that was
/// closed still fails.
const HELD: &str = "/";

/// Holds the standard descriptors that the program was started without, as long as it lives, so that no file gets one
/// of them.
#[derive(Drop)]
pub struct StandardHold<R: Files> {
    first: Option<R::File>,
    second: Option<R::File>,
    third: Option<R::File>,
}

impl<R: Files> StandardHold<R>
where
    R::File: AsRawFd,
{
    pub fn new(rt: &R) -> Self {
        StandardHold {
            first: hold_lowest(rt),
            second: hold_lowest(rt),
            third: hold_lowest(rt),
        }
    }
}

// Takes the lowest descriptor that is free, where it is a standard one.
fn hold_lowest<R: Files>(rt: &R) -> Option<R::File>
where
    R::File: AsRawFd,
    ensures standard { IfSome result (λ file. IfSome (R.File.AsRawFd.raw_fd file) (λ descriptor. descriptor <ℤ pos 3)) }
{
    let file = fs::open(rt, HELD).ok()?;
    if file.as_raw_fd() < STANDARD {
        Some(file)
    } else {
        None
    }
}
