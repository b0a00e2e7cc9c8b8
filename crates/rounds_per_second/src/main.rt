//! Runs a guest by rounds on one vCPU with 64 MiB of RAM, one phase of 1,000,000 instructions after another, and prints
//! how many instructions it finished: what `bench/rounds.sh` times. The arguments are the file of the guest's image and
//! the number of phases. Without them a guest that counts makes one phase.
#![tactic(auto)]

ghost use Rattle.std.specs.Prelude.{◌≡◌, ◌≤◌, length, IfOk};
ghost use Rattle.ram_block.specs.Shape.{ram_bytes_of};

use flat_machine::Machine;
use ram_block::{MAX_BLOCKS, MAX_PAGES, MAX_PHASE, Shape};
use std::alloc::Global;
use std::env::{Env, FillError};
use std::fs;
use std::io::{self, ErrorKind};
use std::rt::Files;

// addi x5, x5, 1 and a jump back to it.
const GUEST: [u8; 8] = [0x93, 0x82, 0x12, 0x00, 0x6f, 0xf0, 0xdf, 0xff];

fn main(rt: HostRuntime) -> io::Result<()> {
    let mut name = [0; 256];
    let instructions = match rt.arg(1, &mut name) {
        Ok(len) => {
            let image = fs::read(&rt, text_of(&name[..len])?)?;
            instructions_of(rt.alloc(), &image, wanted_phases(&rt)?)?
        }
        Err(FillError::NotPresent) => instructions_of(rt.alloc(), &GUEST, 1)?,
        Err(FillError::TooLong) => return Err(bad_argument()),
    };
    println!(rt; "{instructions} instructions")
}

fn wanted_phases<R: Env>(rt: &R) -> io::Result<u32> {
    let mut digits = [0; 16];
    match rt.arg(2, &mut digits) {
        Ok(len) => text_of(&digits[..len])?
            .parse::<u32>()
            .map_err(|_| bad_argument()),
        Err(_) => Err(bad_argument()),
    }
}

fn text_of(bytes: &[u8]) -> io::Result<&str> {
    str::from_utf8(bytes).map_err(|_| bad_argument())
}

fn bad_argument() -> io::Error {
    io::Error::from(ErrorKind::InvalidInput)
}

// How many instructions the guest finishes in so many phases.
fn instructions_of(alloc: Global, image: &[u8], phases: u32) -> io::Result<u64> {
    let Ok(shape) = Shape::new(1, MAX_BLOCKS.into(), MAX_PAGES.into()) else {
        return Err(io::Error::from(ErrorKind::Other));
    };
    if image.len() as u64 > shape.ram_bytes() {
        return Err(bad_argument());
    }
    let Ok(mut machine) = Machine::boot(alloc, shape, image, &[]) else {
        return Err(io::Error::from(ErrorKind::OutOfMemory));
    };
    for _ in 0..phases {
        run_phase(alloc, &mut machine)?;
    }
    Ok(machine.vcpu(0).steps())
}

// One phase more, where the machine rests.
fn run_phase(alloc: Global, machine: &mut Machine) -> io::Result<()> {
    if !machine.at_rest() {
        return Err(io::Error::from(ErrorKind::Other));
    }
    match machine.rounds(alloc, MAX_PHASE) {
        Ok(_) => Ok(()),
        Err(_) => Err(io::Error::from(ErrorKind::OutOfMemory)),
    }
}
