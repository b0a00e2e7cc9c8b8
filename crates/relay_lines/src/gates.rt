use ram_block::Gate;
use std::alloc::Global;
use std::sync::Wait;
use std::sync::atomic::{AtomicU64, Ordering};
use std::test::Fail;
use std::thread::Threads;
use test_lines::{LINE, Line, answer_on_threads, counting};

/// A gate that counts what it is told of.
#[derive(Drop)]
struct Told {
    turns: AtomicU64,
    // Events of each of two vCPUs.
    events: [AtomicU64; 2],
    // Turns that had another number than the one behind the last, and events of no vCPU that there is.
    wrong: AtomicU64,
}

impl Told {
    fn new() -> Told {
        Told {
            turns: AtomicU64::new(0),
            events: [AtomicU64::new(0), AtomicU64::new(0)],
            wrong: AtomicU64::new(0),
        }
    }

    /// Whether it was told of so many turns or more, by their numbers, and of just so many events of each vCPU.
    fn knows(&self, turns: u64, events: u64) -> bool {
        self.turns.load(Ordering::SeqCst) >= turns
            && self
                .events
                .iter()
                .all(|told| told.load(Ordering::SeqCst) == events)
            && self.wrong.load(Ordering::SeqCst) == 0
    }
}

impl Gate for Told {
    fn before_turn(&self, n: u32) {
        let before = self.turns.fetch_add(1, Ordering::SeqCst);
        if before.saturating_add(1) != u64::from(n) {
            self.wrong.fetch_add(1, Ordering::SeqCst);
        }
    }

    fn done(&self, k: u32) {
        let told = self.events.get(k as usize).unwrap_or(&self.wrong);
        told.fetch_add(1, Ordering::SeqCst);
    }
}

/// Whether a save of three pages by these words, beside which each of two vCPUs makes four events, is complete and tells its gate
/// of all of them, and of a turn for each page and one for the end.
fn tells_all<'a, R: Threads + Wait + Sync>(
    rt: &R,
    alloc: Global,
    words: &'a [&'static str],
    image: &'a [u8],
) -> Result<bool, Fail> {
    let told = Told::new();
    let line = Line {
        words,
        image,
        ..LINE
    };
    let done = answer_on_threads(rt, alloc, &line, &told)?;
    Ok(done.answer.status == 0 && told.knows(4, 4))
}

#[test]
fn the_gate_is_told_of_each_turn_by_its_number_and_of_each_event(
    rt: HostRuntime,
) -> Result<(), Fail> {
    let image = counting();
    for relay in ["relay=0", "relay=1", "relay=64"] {
        #[rattlefmt::skip]
        let words = ["save", "image=a", "out=b", "vcpus=2", "pages=3", "run=4", "mode=threads", relay];
        assert!(rt; tells_all(&rt, rt.alloc(), &words, &image)?, "{relay}");
    }
    Ok(())
}
