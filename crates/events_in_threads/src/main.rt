//! Runs vCPUs in threads over a bus without a saver, for a phase of so many instructions, of which each is one event: what
//! `bench/threads.sh` times. The arguments are the number of vCPUs, how many instructions each makes, and `one` where all
//! fetch from one page, or `own` where each has a page of its own. Without them one vCPU makes 1,000 instructions.
#![tactic(auto)]

ghost use Rattle.std.specs.Prelude.{◌≡◌, ◌≤◌, All};
ghost use Rattle.page_bus.specs.Passes.{vcpu_key};

use flat_machine::Machine;
use page_bus::{Bus, VcpuPass};
use plain_bus::StepAnswer;
use ram_block::{MAX_PHASE, Shape};
use std::alloc::Global;
use std::env::{Env, FillError};
use std::io::{self, ErrorKind};
use std::thread;
use std::thread::{Threads, yield_now};

// addi x5, x5, 1 and a jump back to it.
static ONE: [u8; 8] = [0x93, 0x82, 0x12, 0x00, 0x6f, 0xf0, 0xdf, 0xff];

// A jump to the same in the page of the vCPU's number: auipc x5, 0; slli x6, x10, 12; add x5, x5, x6; jalr x0, 16(x5).
static OWN: [u8; 24] = [
    0x97, 0x02, 0x00, 0x00, 0x13, 0x13, 0xc5, 0x00, 0xb3, 0x82, 0x62, 0x00, 0x67, 0x80, 0x02, 0x01,
    0x93, 0x82, 0x12, 0x00, 0x6f, 0xf0, 0xdf, 0xff,
];

// What a run is of.
#[derive(Clone, Copy)]
struct Wanted {
    vcpus: u32,
    run: u32,
    own_pages: bool,
}

fn main(rt: HostRuntime) -> io::Result<()> {
    let wanted = asked_for(&rt)?;
    let events = events_of(&rt, rt.alloc(), wanted)?;
    println!(rt; "{events} vCPUs made their events")
}

fn bad_argument() -> io::Error {
    io::Error::from(ErrorKind::InvalidInput)
}

fn text_of(bytes: &[u8]) -> io::Result<&str> {
    str::from_utf8(bytes).map_err(|_| bad_argument())
}

fn number<R: Env>(rt: &R, i: usize) -> io::Result<u32> {
    let mut digits = [0; 16];
    match rt.arg(i, &mut digits) {
        Ok(len) => text_of(&digits[..len])?
            .parse::<u32>()
            .map_err(|_| bad_argument()),
        Err(_) => Err(bad_argument()),
    }
}

fn asked_for<R: Env>(rt: &R) -> io::Result<Wanted> {
    let mut word = [0; 16];
    match rt.arg(3, &mut word) {
        Ok(len) => Ok(Wanted {
            vcpus: number(rt, 1)?,
            run: number(rt, 2)?,
            own_pages: text_of(&word[..len])? == "own",
        }),
        Err(FillError::NotPresent) => Ok(Wanted {
            vcpus: 1,
            run: 1000,
            own_pages: false,
        }),
        Err(FillError::TooLong) => Err(bad_argument()),
    }
}

// A machine with a page for each vCPU, at boot, with the guest.
fn booted(alloc: Global, wanted: Wanted) -> io::Result<Machine> {
    let Ok(shape) = Shape::new(wanted.vcpus.into(), 1, 8) else {
        return Err(bad_argument());
    };
    let mut image = Vec::new(alloc);
    if wanted.own_pages {
        for _ in 0..8 {
            image.extend_from_slice(&OWN)?;
            image.resize(image.len() + 4072, 0)?;
        }
    } else {
        image.extend_from_slice(&ONE)?;
    }
    if image.len() as u64 > shape.ram_bytes() {
        return Err(bad_argument());
    }
    Machine::boot(alloc, shape, &image, &[]).map_err(|_| io::Error::from(ErrorKind::OutOfMemory))
}

// Events of a vCPU until its phase has ended.
fn run_vcpu(bus: &Bus, pass: &mut VcpuPass)
    requires { pass.old.table ≡ bus.now.table }
{
    for _ in 0..u64::MAX {
        match bus.try_step(pass) {
            StepAnswer::Idle => return,
            StepAnswer::Done => {}
            StepAnswer::Stopped(_) | StepAnswer::Busy(_) => yield_now(),
        }
    }
}

fn run_all<R: Threads + Sync>(rt: &R, bus: &Bus, passes: &mut Vec<VcpuPass>)
    requires { All (λ p. p.table ≡ bus.now.table) passes.old.items }
{
    thread::for_each_mut(
        rt,
        passes.as_mut_slice(),
        8,
        &|_, pass: &mut VcpuPass|
            requires { pass.now.table ≡ bus.now.table }
        { run_vcpu(bus, pass) },
    );
}

// How many vCPUs there were.
fn events_of<R: Threads + Sync>(rt: &R, alloc: Global, wanted: Wanted) -> io::Result<usize> {
    let machine = booted(alloc, wanted)?;
    if !machine.at_rest() || wanted.run > MAX_PHASE {
        return Err(bad_argument());
    }
    match Bus::start(alloc, machine, wanted.run, false) {
        Ok((bus, mut passes, _saver)) => {
            run_all(rt, &bus, &mut passes);
            Ok(passes.len())
        }
        Err(_) => Err(io::Error::from(ErrorKind::OutOfMemory)),
    }
}
