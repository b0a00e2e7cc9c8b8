ghost use Rattle.std.specs.Prelude.{◌≡◌, ◌↔◌, ◌≤◌, [], List, ℕ, Option, Some, drop, min, length, IfOk, OnOk, OnErr, IsErr};
ghost use Rattle.medium.specs.Count.{HasCause};
ghost use Rattle.medium.specs.Bytes.{TakesFrom};
ghost use Rattle.medium.specs.Memory.{IsPlanned, passed, failed};

use crate::call_count::CallCount;
use crate::{FailPlan, Failed, Source};
use std::marker::Model;

/// An input of bytes in memory, of which calls fail by plan.
#[derive(Drop)]
pub struct MemSource {
    bytes: Vec<u8>,
    at: usize,
    count: CallCount,
}

impl Model for MemSource {
    ghost use Rattle.std.specs.Prelude.{◌≤◌, drop, length};
    ghost use Rattle.medium.specs.Memory.{SourceData};

    ghost Value = { SourceData };

    ghost view = { λ s. record { bytes_left = drop s.at s.bytes.items; count = s.count } };

    ghost invariant = { λ s. s.at ≤ length s.bytes.items };
}

impl MemSource {
    /// An input with all of these bytes left.
    pub fn new(bytes: Vec<u8>, plan: FailPlan) -> MemSource
        ensures { result ≡ record { bytes_left = bytes.items; count = record { fails = plan.calls.items; fails_from = plan.from; made = 0; faults = 0 } } }
    {
        MemSource {
            bytes,
            at: 0,
            count: CallCount::new(plan),
        }
    }
}

impl Source for MemSource {
    ghost left = { λ s. Some s.bytes_left };

    ghost faults = { λ s. s.count.faults };

    fn read(&mut self, buf: &mut [u8]) -> Result<usize, Failed>
        ensures within { IfOk result (λ n. n ≤ length buf.new) }
        ensures answer { IfOk result (λ n. TakesFrom (Some self.old.bytes_left) (Some self.new.bytes_left) n buf.new) }
        ensures stays { OnErr result (self.new.bytes_left ≡ self.old.bytes_left) }
        ensures cause { HasCause self.old.count.faults self.new.count.faults result }

        ensures planned { IsErr result ↔ IsPlanned self.old.count }
        ensures all { IfOk result (λ n. n ≡ min (length buf.old) (length self.old.bytes_left)) }
        ensures passed { OnOk result (self.new.count ≡ passed self.old.count) }
        ensures failed { OnErr result (self.new.count ≡ failed self.old.count) }
        ensures buffer { OnErr result (buf.new ≡ buf.old) }
    {
        if self.count.is_planned() {
            self.count.fail();
            return Err(Failed);
        }
        let n = buf.len().min(self.bytes.len() - self.at);
        buf[..n].copy_from_slice(&self.bytes[self.at..self.at + n]);
        self.at += n;
        self.count.pass();
        Ok(n)
    }
}
