use ram_block::NoGate;
use snapshot_by_hand::{Cpu, SMALLEST, Snapshot, file_of};
use std::alloc::Global;
use std::sync::Wait;
use std::test::Fail;
use std::thread::Threads;
use test_lines::{ADDED, ADDS, LINE, Line, answer_on_threads, counts_behind};

/// The word of a page into which the guest has stored 2499.
const SUMMED: [u8; 2] = [0xc3, 0x09];

/// The guest that adds, once each of its two vCPUs has run 10,000 instructions.
const INSTANT: Snapshot<'static> = Snapshot {
    blocks: 2,
    pages: 256,
    saved: &[(0, &ADDS), (2, &SUMMED), (3, &SUMMED)],
    cpus: &[
        Cpu {
            regs: &[(5, 0x8000_2000), (7, 2499)],
            pc: 0x8000_0010,
            steps: 10_000,
            state: 0,
        },
        Cpu {
            regs: &[(5, 0x8000_3000), (6, 0x1000), (7, 2499), (10, 1)],
            pc: 0x8000_0010,
            steps: 10_000,
            state: 0,
        },
    ],
    clock: 29_998,
    ..SMALLEST
};

/// Whether a save of the guest that adds by these words writes this file, the guest runs on as it would alone, and each page is
/// counted once.
fn saves_adding<'a, R: Threads + Wait + Sync>(
    rt: &R,
    alloc: Global,
    words: &'a [&'static str],
    file: &'a [u8],
) -> Result<bool, Fail> {
    let line = Line {
        words,
        image: &ADDS,
        room: 4_194_991,
        ..LINE
    };
    let done = answer_on_threads(rt, alloc, &line, &NoGate)?;
    let Some((counts, rest)) = counts_behind(done.printed(), "save complete") else {
        return Ok(false);
    };
    let answer = &done.answer;
    Ok(
        answer.status == 0
            && counts.pages() == 512
            && counts.faults <= 2
            && rest == ADDED
            && answer.first.count() == 29_998
            && answer.second.count() == 150_000
            && done.written() == file
            && done.files.output.unsynced() == 0,
    )
}

#[test]
fn a_guest_saved_over_a_relay_leaves_the_file_of_the_instant(rt: HostRuntime) -> Result<(), Fail> {
    let alloc = rt.alloc();
    let file = file_of(alloc, &INSTANT)?;
    assert_eq!(rt; file.len(), 4_194_991);
    for relay in ["relay=1", "relay=4", "relay=64"] {
        #[rattlefmt::skip]
        let words = [
            "save", "image=a", "out=b", "vcpus=2", "blocks=2", "pages=256", "stop=10000", "run=50000", "mode=threads", relay,
        ];
        assert!(rt; saves_adding(&rt, alloc, &words, &file)?, "{relay}");
    }
    Ok(())
}
