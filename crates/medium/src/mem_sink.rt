ghost use Rattle.std.specs.Prelude.{◌≡◌, ◌↔◌, ◌⊎◌, ◌<◌, ◌≤◌, ◌+◌, ◌++◌, [], List, ℕ, Option, Some, length, option_map, IfOk, OnOk, OnErr, IsErr};
ghost use Rattle.medium.specs.Count.{HasCause};
ghost use Rattle.medium.specs.Bytes.{BecomesTold, AddsFront};
ghost use Rattle.medium.specs.Memory.{IsPlanned, passed, failed};

use crate::call_count::CallCount;
use crate::{FailPlan, Failed, Sink};
use ram_block::NoMemory;
use std::alloc::Global;
use std::marker::Model;

/// An output that keeps its bytes in memory, of which calls fail by plan and where the room ends.
#[derive(Drop)]
pub struct MemSink {
    bytes: Vec<u8>,
    room: usize,
    count: CallCount,
}

impl Model for MemSink {
    ghost use Rattle.std.specs.Prelude.{◌≤◌, length, vec_capacity};
    ghost use Rattle.medium.specs.Memory.{SinkData};

    ghost Value = { SinkData };

    ghost view = { λ s. record { bytes_taken = s.bytes.items; room = s.room; count = s.count } };

    ghost invariant = { λ s. (length s.bytes.items ≤ s.room) × (s.room ≤ vec_capacity s.bytes) };
}

impl MemSink {
    /// An output that has taken nothing. All its memory is taken here.
    pub fn new(alloc: Global, room: u64, plan: FailPlan) -> Result<MemSink, NoMemory>
        ensures { IfOk result (λ sink. sink ≡ record { bytes_taken = []; room = room; count = record { fails = plan.calls.items; fails_from = plan.from; made = 0; faults = 0 } }) }
    {
        let room = room as usize;
        Ok(MemSink {
            bytes: Vec::with_capacity(alloc, room)?,
            room,
            count: CallCount::new(plan),
        })
    }

    /// The bytes that it has taken.
    pub fn bytes(&self) -> &[u8]
        ensures { result.now ≡ self.now.bytes_taken }
    {
        &self.bytes
    }
}

impl Sink for MemSink {
    ghost taken = { λ s. Some s.bytes_taken };

    ghost faults = { λ s. s.count.faults };

    fn write(&mut self, bytes: &[u8]) -> Result<(), Failed>
        ensures all { OnOk result (Some self.new.bytes_taken ≡ option_map (λ before. before ++ bytes.now) (Some self.old.bytes_taken)) }
        ensures some { OnErr result (BecomesTold (AddsFront bytes.now) (Some self.old.bytes_taken) (Some self.new.bytes_taken)) }
        ensures cause { HasCause self.old.count.faults self.new.count.faults result }

        ensures refused { IsErr result ↔ (IsPlanned self.old.count ⊎ (self.old.room < length self.old.bytes_taken + length bytes.now)) }
        ensures stays { OnErr result (self.new.bytes_taken ≡ self.old.bytes_taken) }
        ensures room { self.new.room ≡ self.old.room }
        ensures passed { OnOk result (self.new.count ≡ passed self.old.count) }
        ensures failed { OnErr result (self.new.count ≡ failed self.old.count) }
    {
        if self.count.is_planned() || bytes.len() > self.room - self.bytes.len() {
            self.count.fail();
            return Err(Failed);
        }
        let taken = self.bytes.extend_from_slice(bytes);
        prove!(taken.is_ok());
        self.count.pass();
        Ok(())
    }
}
