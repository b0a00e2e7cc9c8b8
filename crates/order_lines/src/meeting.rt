use crate::compare::replay_difference;
use crate::guests::RACES;
use ram_block::Gate;
use std::alloc::Global;
use std::sync::Wait;
use std::sync::atomic::{AtomicU64, Ordering};
use std::test::Fail;
use std::thread::{Threads, yield_now};
use test_lines::{LINE, Line, answer_on_threads};

/// How many turns a wait has.
const MOST_TURNS: u32 = 10_000_000;

/// Counts that the first events of two vCPUs meet by.
#[derive(Drop)]
struct Meeting {
    // Events that each vCPU has made.
    made: [AtomicU64; 2],
    // Waits that reached their limit.
    late: AtomicU64,
}

impl Meeting {
    // Waits until the count isn't 0.
    fn wait_for(&self, count: &AtomicU64) {
        for _ in 0..MOST_TURNS {
            if count.load(Ordering::SeqCst) > 0 {
                return;
            }
            yield_now();
        }
        self.late.fetch_add(1, Ordering::SeqCst);
    }

    // Whether no wait was too long, and each vCPU has made three events.
    fn has_met(&self) -> bool {
        let [first, second] = &self.made;
        self.late.load(Ordering::SeqCst) == 0
            && first.load(Ordering::SeqCst) == 3
            && second.load(Ordering::SeqCst) == 3
    }
}

/// The first event of each vCPU waits for that of the other.
impl Gate for Meeting {
    fn before_turn(&self, _n: u32) {}

    fn done(&self, k: u32) {
        let k = k as usize % 2;
        if self.made[k].fetch_add(1, Ordering::SeqCst) == 0 {
            self.wait_for(&self.made[1 - k]);
        }
    }
}

const RECORD: Line<'static> = Line {
    words: &["record", "image=a", "out=b", "vcpus=2", "pages=2", "run=2"],
    image: &RACES,
    ..LINE
};

const REPLAY: [&str; 5] = ["replay", "image=a", "in=b", "vcpus=2", "pages=2"];

/// Whether a record ends well in which each vCPU's first event waits for the other's, its order begins with one event of each,
/// and its replay is the same run.
fn meets<R: Threads + Wait + Sync>(rt: &R, alloc: Global) -> Result<bool, Fail> {
    let meeting = Meeting {
        made: [AtomicU64::new(0), AtomicU64::new(0)],
        late: AtomicU64::new(0),
    };
    let done = answer_on_threads(rt, alloc, &RECORD, &meeting)?;
    let order = &done.answer.first;
    Ok(
        done.answer.status == 0
            && meeting.has_met()
            && order.count() == 6
            && order.get(0) != order.get(1)
            && replay_difference(alloc, &REPLAY, &RACES, &done)?.is_none(),
    )
}

#[test]
fn two_vcpus_of_a_record_run_beside_one_another(rt: HostRuntime) -> Result<(), Fail> {
    assert!(rt; meets(&rt, rt.alloc())?);
    Ok(())
}
