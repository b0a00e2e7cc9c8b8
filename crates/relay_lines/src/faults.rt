use ram_block::Gate;
use std::alloc::Global;
use std::sync::Wait;
use std::sync::atomic::{AtomicU64, Ordering};
use std::test::Fail;
use std::thread::{Threads, yield_now};
use test_lines::{Counts, LINE, Line, answer_on_threads, counts_behind};

/// auipc x5, 1 and sd x5, 0(x5): it stores into page 1.
const STORES: [u8; 8] = [0x97, 0x12, 0x00, 0x00, 0x23, 0xb0, 0x52, 0x00];

/// How many turns the wait for the events has, and how many the one behind them.
const MOST_TURNS: u32 = 10_000_000;

const TURNS: u32 = 100_000;

/// A gate that holds the first turn until a vCPU has fetched its store, and has had time to come to the store itself.
#[derive(Drop)]
struct Held {
    events: AtomicU64,
}

impl Gate for Held {
    fn before_turn(&self, n: u32) {
        if n > 1 {
            return;
        }
        for _ in 0..MOST_TURNS {
            if self.events.load(Ordering::SeqCst) >= 2 {
                break;
            }
            yield_now();
        }
        for _ in 0..TURNS {
            yield_now();
        }
    }

    fn done(&self, _k: u32) {
        self.events.fetch_add(1, Ordering::SeqCst);
    }
}

/// What a save of three pages counts by these words, if it is complete, where the first turn comes once a vCPU waits for page 1.
fn counted<'a, R: Threads + Wait + Sync>(
    rt: &R,
    alloc: Global,
    words: &'a [&'static str],
) -> Result<Option<Counts>, Fail> {
    let held = Held {
        events: AtomicU64::new(0),
    };
    let line = Line {
        words,
        image: &STORES,
        ..LINE
    };
    let done = answer_on_threads(rt, alloc, &line, &held)?;
    Ok(counts_behind(done.printed(), "save complete").map(|(counts, _)| counts))
}

#[test]
fn a_page_that_a_vcpu_waits_for_is_reported_as_a_fault(rt: HostRuntime) -> Result<(), Fail> {
    for relay in ["relay=0", "relay=1", "relay=64"] {
        let words = [
            "save",
            "image=a",
            "out=b",
            "pages=3",
            "run=2",
            "mode=threads",
            relay,
        ];
        let Some(counts) = counted(&rt, rt.alloc(), &words)? else {
            assert!(rt; false, "{relay}");
            continue;
        };
        assert_eq!(rt; (counts.faults, counts.sweep), (1, 2), "{relay}");
        assert!(rt; counts.blocked > 0, "{relay}");
    }
    Ok(())
}
