use medium::{MemSink, MemSource};
use ram_block::Gate;
use std::alloc::Global;
use std::sync::Wait;
use std::test::Fail;
use std::thread::Threads;
use test_lines::{Fails, Pause, PausedFile, counting, words};
use vm_cli::rvsnap;

/// Each event waits for the first write of a page, and is told to it where it had begun.
#[derive(Drop)]
struct Events<'a> {
    pause: &'a Pause,
}

impl Gate for Events<'_> {
    fn before_turn(&self, _n: u32) {}

    fn done(&self, k: u32) {
        if self.pause.has_begun() {
            self.pause.come(k as usize);
        } else {
            self.pause.wait_for_begin();
        }
    }
}

/// Whether a save of so many vCPUs is complete in which the first write of a page stood until each had made two events.
fn meets<R: Threads + Wait + Sync>(
    rt: &R,
    alloc: Global,
    vcpus: usize,
    line: &[&str],
) -> Result<bool, Fail> {
    let pause = Pause::new();
    let mut output = PausedFile::new(&pause, vcpus);
    let mut input = PausedFile::new(&pause, vcpus);
    let mut image = MemSource::new(counting().to_vec(alloc)?, Fails::Never.plan(alloc)?);
    let mut console = MemSink::new(alloc, 4096, Fails::Never.plan(alloc)?)?;
    let answer = rvsnap(
        rt,
        alloc,
        &words(alloc, line)?,
        &mut image,
        &mut input,
        &mut output,
        &mut console,
        &Events { pause: &pause },
    );
    Ok(answer.status == 0 && pause.is_in_time())
}

/// A guest of so many vCPUs, and the line of its save.
#[rattlefmt::skip]
static SAVES: [(usize, &[&str]); 2] = [
    (1, &["save", "image=a", "out=b", "pages=3", "run=4", "mode=threads"]),
    (2, &["save", "image=a", "out=b", "vcpus=2", "pages=3", "run=4", "mode=threads"]),
];

#[test]
fn each_vcpu_runs_while_the_saver_writes(rt: HostRuntime) -> Result<(), Fail> {
    for &(vcpus, line) in &SAVES {
        assert!(rt; meets(&rt, rt.alloc(), vcpus, line)?, "{vcpus} vCPUs");
    }
    Ok(())
}
