use medium::{MemSink, MemSource};
use ram_block::Gate;
use std::alloc::Global;
use std::sync::Wait;
use std::test::Fail;
use std::thread::Threads;
use test_lines::{Fails, Pause, PausedFile, counting, words};
use vm_cli::rvsnap;

/// Whether a save is complete whose first write of a page stands until the gate has told of two more calls.
fn meets<R: Threads + Wait + Sync, G: Gate>(
    rt: &R,
    alloc: Global,
    image: &[u8],
    line: &[&str],
    pause: &Pause,
    gate: &G,
) -> Result<bool, Fail> {
    let mut output = PausedFile::new(pause, 1);
    let mut input = PausedFile::new(pause, 1);
    let mut image = MemSource::new(image.to_vec(alloc)?, Fails::Never.plan(alloc)?);
    let mut console = MemSink::new(alloc, 4096, Fails::Never.plan(alloc)?)?;
    let answer = rvsnap(
        rt,
        alloc,
        &words(alloc, line)?,
        &mut image,
        &mut input,
        &mut output,
        &mut console,
        gate,
    );
    Ok(answer.status == 0 && pause.has_begun() && pause.is_in_time())
}

/// Each turn of the copier that begins while the first write of a page stands is told to it.
#[derive(Drop)]
struct Turns<'a> {
    pause: &'a Pause,
}

impl Gate for Turns<'_> {
    fn before_turn(&self, _n: u32) {
        if self.pause.has_begun() {
            self.pause.come(0);
        }
    }

    fn done(&self, _k: u32) {}
}

/// Three pages over a relay that holds one, and no event beside them.
#[rattlefmt::skip]
const COPIES: [&str; 7] = ["save", "image=a", "out=b", "pages=3", "run=0", "mode=threads", "relay=1"];

#[test]
fn pages_are_copied_while_one_is_written(rt: HostRuntime) -> Result<(), Fail> {
    let pause = Pause::new();
    let turns = Turns { pause: &pause };
    assert!(rt; meets(&rt, rt.alloc(), &counting(), &COPIES, &pause, &turns)?);
    Ok(())
}

/// The first event waits for the first write of a page, and each later one is told to it.
#[derive(Drop)]
struct Events<'a> {
    pause: &'a Pause,
}

impl Gate for Events<'_> {
    fn before_turn(&self, _n: u32) {}

    fn done(&self, _k: u32) {
        if self.pause.has_begun() {
            self.pause.come(0);
        } else {
            self.pause.wait_for_begin();
        }
    }
}

/// auipc x5, 7 and sd x5, 0(x5): three events, the last of which is a store into the last of eight pages.
const STORES: [u8; 8] = [0x97, 0x72, 0x00, 0x00, 0x23, 0xb0, 0x52, 0x00];

/// Eight pages over a relay that holds as many.
#[rattlefmt::skip]
const STORES_BESIDE: [&str; 7] = ["save", "image=a", "out=b", "pages=8", "run=2", "mode=threads", "relay=8"];

#[test]
fn a_write_that_stands_holds_up_no_vcpu_while_the_relay_has_room(
    rt: HostRuntime,
) -> Result<(), Fail> {
    let pause = Pause::new();
    let events = Events { pause: &pause };
    assert!(rt; meets(&rt, rt.alloc(), &STORES, &STORES_BESIDE, &pause, &events)?);
    Ok(())
}
