ghost use Rattle.std.specs.Prelude.{◌≤◌, None};
ghost use Rattle.std.proofs.lemmas.Option.{none-some};

use medium::{Failed, Medium, Readable};
use std::sync::atomic::{AtomicU64, Ordering};
use std::thread::yield_now;

/// How many turns a wait has.
const MOST_TURNS: u32 = 10_000_000;

/// The first write of a page, which stands until each of one or two others has come twice meanwhile.
#[derive(Drop)]
pub struct Pause {
    // Writes of a whole page that have begun.
    begun: AtomicU64,
    // How often each of the others has come since.
    come: [AtomicU64; 2],
    // Waits that reached their limit.
    late: AtomicU64,
}

impl Pause {
    /// No write has begun.
    pub fn new() -> Pause {
        Pause {
            begun: AtomicU64::new(0),
            come: [AtomicU64::new(0), AtomicU64::new(0)],
            late: AtomicU64::new(0),
        }
    }

    /// Whether the write has begun.
    pub fn has_begun(&self) -> bool {
        self.begun.load(Ordering::SeqCst) > 0
    }

    /// Waits until it has begun.
    pub fn wait_for_begin(&self) {
        self.wait_for(&self.begun, 1);
    }

    /// One of the others comes, by its number.
    pub fn come(&self, other: usize) {
        self.come[other % 2].fetch_add(1, Ordering::SeqCst);
    }

    /// Whether no wait has reached its limit.
    pub fn is_in_time(&self) -> bool {
        self.late.load(Ordering::SeqCst) == 0
    }

    // Begins a write, and whether it is the first.
    fn begin(&self) -> bool {
        self.begun.fetch_add(1, Ordering::SeqCst) == 0
    }

    // Waits until each of so many others has come twice.
    fn wait_for_others(&self, others: usize) {
        for come in self.come.iter().take(others) {
            self.wait_for(come, 2);
        }
    }

    // Waits until the count is at least so high.
    fn wait_for(&self, count: &AtomicU64, least: u64) {
        for _ in 0..MOST_TURNS {
            if count.load(Ordering::SeqCst) >= least {
                return;
            }
            yield_now();
        }
        self.late.fetch_add(1, Ordering::SeqCst);
    }
}

/// A file that tells nothing, its images neither. Its first write of a page stands until so many others have come twice.
#[derive(Drop)]
pub struct PausedFile<'a> {
    pause: &'a Pause,
    others: usize,
    syncs: u64,
}

impl<'a> PausedFile<'a> {
    pub fn new(pause: &'a Pause, others: usize) -> PausedFile<'a> {
        PausedFile {
            pause,
            others,
            syncs: 0,
        }
    }
}

impl Readable for PausedFile<'_> {
    ghost told = { λ _. None };

    ghost faults = { λ _. 0 };

    ghost syncs = { λ file. file.syncs };

    ghost may_leave = { λ _ _. ⊥ };

    ghost moment = { λ _. 0 };

    ghost left_since = { λ _ _ _. ⊥ };

    fn len(&mut self) -> Result<u64, Failed> {
        Ok(0)
    }

    fn read_at(&mut self, _at: u64, _buf: &mut [u8]) -> Result<usize, Failed> {
        Ok(0)
    }

    ghost told_is_image = { λ _ bytes told. none-some bytes told };

    ghost now_counts = { λ _ _ _ _ left. left };

    ghost only_now = { λ _ _ left. left };
}

impl Medium for PausedFile<'_> {
    fn write_at(&mut self, _at: u64, bytes: &[u8]) -> Result<(), Failed> {
        if bytes.len() == 4096 && self.pause.begin() {
            self.pause.wait_for_others(self.others);
        }
        Ok(())
    }

    fn sync(&mut self) -> Result<(), Failed> {
        self.syncs = self.syncs.saturating_add(1);
        Ok(())
    }
}
