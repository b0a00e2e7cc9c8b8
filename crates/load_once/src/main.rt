//! Loads a snapshot file once, and prints its shape: what `bench/load.sh` times. The argument is the file. Without it
//! nothing is loaded.
#![tactic(auto)]

use loader::load;
use std::alloc::Global;
use std::env::{Env, FillError};
use std::io::{self, ErrorKind};
use std::os::fd::AsRawFd;
use std::rt::Files;
use vm_cli::{FileMedium, Opening};

fn main(rt: HostRuntime) -> io::Result<()> {
    let mut name = [0; 256];
    match rt.arg(1, &mut name) {
        Ok(len) => {
            let path = str::from_utf8(&name[..len]).map_err(|_| bad_argument())?;
            let pages = pages_of(&rt, rt.alloc(), path)?;
            println!(rt; "{pages} pages")
        }
        Err(FillError::NotPresent) => println!(rt; "no file"),
        Err(FillError::TooLong) => Err(bad_argument()),
    }
}

fn bad_argument() -> io::Error {
    io::Error::from(ErrorKind::InvalidInput)
}

// How many pages the machine of a file has.
fn pages_of<R: Files>(rt: &R, alloc: Global, path: &str) -> io::Result<u32>
where
    R::File: AsRawFd,
{
    let mut medium = FileMedium::new(rt, Some(path), Opening::Existing);
    match load(alloc, &mut medium) {
        Ok(machine) => Ok(machine.shape().total_pages()),
        Err(_) => Err(io::Error::from(ErrorKind::InvalidData)),
    }
}
