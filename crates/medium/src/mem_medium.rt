ghost use Rattle.std.specs.Prelude.{◌≡◌, ◌↔◌, ◌≤◌, ◌+◌, ◌^◌, [], List, ℕ, Bool, Option, Some, length, option_map, is_ok, if◌then◌else◌, IfOk, IfSome, OnOk, OnErr, IsErr, IsTrue};
ghost use Rattle.medium.specs.Count.{HasCause, counted};
ghost use Rattle.medium.specs.Bytes.{ReadsAt, written, BecomesTold};
ghost use Rattle.medium.specs.States.{Leaves};
ghost use Rattle.medium.specs.Crash.{Torn, Follows, SameImages, Only, Elapses};
ghost use Rattle.medium.specs.History.{pending, bytes_synced, Keeps};
ghost use Rattle.medium.specs.Laws.{told_image, image_counts, only_now_image};
ghost use Rattle.medium.specs.Memory.{IsPlanned, WriteFails, IsPastLimits, IsWithinLimits, bytes_of, images_of, moment_of, since_of, state_of, looked, refused, wrote, made_sure};

use crate::call_count::CallCount;
use crate::mem_bytes::read_bytes;
use crate::write_log::{Write, keep, mark, place, replay};
use crate::{FailPlan, Failed, Medium, Readable};
use ram_block::NoMemory;
use std::alloc::Global;
use std::marker::Model;

/// A file in memory that keeps a record of all its writes and syncs. Its calls fail by plan and at its limits.
#[derive(Drop)]
pub struct MemMedium {
    first: Vec<u8>,
    bytes: Vec<u8>,
    log: Vec<Write>,
    joined: Vec<u8>,
    durable: usize,
    room: usize,
    writes: usize,
    count: CallCount,
    syncs: u64,
}

impl Model for MemMedium {
    ghost use Rattle.std.specs.Prelude.{[], length, vec_capacity};
    ghost use Rattle.medium.specs.Memory.{MediumData};

    ghost Value = { MediumData };

    ghost use Rattle.medium.specs.Log.{events_of, IsRecord, HasRoom};

    ghost view = { λ m. record { first = m.first.items; past = events_of m.log.items m.joined.items []; room = m.room; writes = m.writes; count = m.count; syncs = m.syncs } };

    ghost invariant = { λ m. IsRecord m.first.items m.bytes.items m.log.items m.joined.items m.durable
        × HasRoom (length m.bytes.items) m.room (vec_capacity m.bytes)
        × HasRoom (length m.joined.items) m.room (vec_capacity m.joined)
        × HasRoom (length m.log.items) m.writes (vec_capacity m.log) };
}

impl MemMedium {
    /// A file with these bytes, all of them synced. All its memory is taken here.
    pub fn new(
        alloc: Global,
        bytes: Vec<u8>,
        room: u64,
        writes: usize,
        plan: FailPlan,
    ) -> Result<MemMedium, NoMemory>
        requires { length bytes.items ≤ room }
        ensures { IfOk result (λ m. m ≡ record { first = bytes.items; past = []; room = room; writes = writes; count = record { fails = plan.calls.items; fails_from = plan.from; made = 0; faults = 0 }; syncs = 0 }) }
    {
        let room = room as usize;
        let mut present = Vec::with_capacity(alloc, room)?;
        present.extend_from_slice(&bytes)?;
        Ok(MemMedium {
            first: bytes,
            bytes: present,
            log: Vec::with_capacity(alloc, writes)?,
            joined: Vec::with_capacity(alloc, room)?,
            durable: 0,
            room,
            writes,
            count: CallCount::new(plan),
            syncs: 0,
        })
    }

    pub fn bytes(&self) -> &[u8]
        ensures { result.now ≡ bytes_of self.now }
    {
        &self.bytes
    }

    /// The number of writes since the last sync.
    pub fn unsynced(&self) -> usize
        ensures { result ≡ length (pending self.now.past) }
    {
        self.log.len() - self.durable
    }

    /// The bytes of the last sync, with the present bytes in the range of each kept write: one of the images.
    /// The writes since the last sync are told in their order.
    pub fn crash(&self, alloc: Global, kept: &[bool]) -> Result<Vec<u8>, NoMemory>
        requires { length kept.now ≡ length (pending self.now.past) }
        ensures keeps { IfOk result (λ left. Keeps (bytes_synced self.now.first self.now.past) (bytes_of self.now) (pending self.now.past) kept.now left.items) }
        ensures image { IfOk result (λ left. images_of self.now left.items) }
    {
        let (synced, since) = self.log.split_at(self.durable);
        let mut left = Vec::with_capacity(alloc, self.room)?;
        left.extend_from_slice(&self.first)?;
        replay(&mut left, synced, &self.joined)?;
        keep(&mut left, since, kept, &self.bytes)?;
        Ok(left)
    }

    fn is_planned(&self) -> bool
        ensures { IsTrue result ↔ IsPlanned self.now.count }
    {
        self.count.is_planned()
    }

    /// Whether a write of n bytes is past a limit.
    #[tactic(auto, using(crate::proofs::Log::count_of, crate::proofs::Log::written_is))]
    fn is_past_limits(&self, at: u64, n: usize) -> bool
        requires { at + n ≤ 2 ^ 40 }
        ensures { IsTrue result ↔ IsPastLimits self.now at n }
    {
        at as usize + n > self.room
            || self.log.len() >= self.writes
            || n > self.room - self.joined.len()
    }

    /// Counts a call that fails.
    fn refuse(&mut self)
        ensures refused { self.new ≡ refused self.old }
        ensures rises { self.old.count.faults ≤ self.new.count.faults }
    {
        self.count.fail();
    }

    /// Counts a call that only looks.
    fn look(&mut self)
        ensures { self.new ≡ looked self.old }
    {
        self.count.pass();
    }

    /// Writes, within the limits.
    fn write(&mut self, at: u64, bytes: &[u8])
        requires end { at + length bytes.now ≤ 2 ^ 40 }
        requires limits { IsWithinLimits self.old at (length bytes.now) }
        ensures { self.new ≡ wrote self.old at bytes.now }
    {
        let at = at as usize;
        let placed = place(&mut self.bytes, at, bytes);
        prove!(placed.is_ok());
        let joined = self.joined.extend_from_slice(bytes);
        prove!(joined.is_ok());
        self.log.push_reserved(Write {
            at,
            len: bytes.len(),
            synced: false,
        });
        self.count.pass();
    }

    /// Marks the last write.
    fn make_sure(&mut self)
        ensures { self.new ≡ made_sure self.old }
    {
        mark(&mut self.log);
        self.durable = self.log.len();
        self.syncs = self.syncs.saturating_add(1);
        self.count.pass();
    }
}

impl Readable for MemMedium {
    ghost told = { λ m. Some (bytes_of m) };

    ghost faults = { λ m. m.count.faults };

    ghost syncs = { λ m. m.syncs };

    ghost may_leave = { images_of };

    ghost moment = { moment_of };

    ghost left_since = { since_of };

    ghost told_is_image = { λ m bytes told. told_image m bytes told };

    ghost now_counts = { λ m t image le now. image_counts m t image le now };

    ghost only_now = { λ m image left. only_now_image m image left };

    fn len(&mut self) -> Result<u64, Failed>
        ensures answer { IfOk result (λ n. n ≡ length (bytes_of self.old)) }
        ensures cause { HasCause self.old.count.faults self.new.count.faults result }
        ensures leaves { Leaves (state_of self.old) (state_of self.new) }

        ensures planned { IsErr result ↔ IsPlanned self.old.count }
        ensures ok { OnOk result (self.new ≡ looked self.old) }
        ensures refused { OnErr result (self.new ≡ refused self.old) }
    {
        if self.is_planned() {
            self.refuse();
            return Err(Failed);
        }
        self.look();
        Ok(self.bytes().len() as u64)
    }

    fn read_at(&mut self, at: u64, buf: &mut [u8]) -> Result<usize, Failed>
        requires { at + length buf.old ≤ 2 ^ 40 }
        ensures within { IfOk result (λ n. n ≤ length buf.new) }
        ensures answer { IfOk result (λ n. ReadsAt (bytes_of self.old) at n buf.new) }
        ensures cause { HasCause self.old.count.faults self.new.count.faults result }
        ensures leaves { Leaves (state_of self.old) (state_of self.new) }

        ensures planned { IsErr result ↔ IsPlanned self.old.count }
        ensures ok { OnOk result (self.new ≡ looked self.old) }
        ensures refused { OnErr result (self.new ≡ refused self.old) }
        ensures buffer { OnErr result (buf.new ≡ buf.old) }
    {
        if self.is_planned() {
            self.refuse();
            return Err(Failed);
        }
        self.look();
        Ok(read_bytes(self.bytes(), at, buf))
    }
}

impl Medium for MemMedium {
    fn write_at(&mut self, at: u64, bytes: &[u8]) -> Result<(), Failed>
        requires { at + length bytes.now ≤ 2 ^ 40 }
        ensures written { OnOk result (Some (bytes_of self.new) ≡ option_map (written at bytes.now) (Some (bytes_of self.old))) }
        ensures torn { OnErr result (BecomesTold (Torn at (length bytes.now)) (Some (bytes_of self.old)) (Some (bytes_of self.new))) }
        ensures cause { HasCause self.old.count.faults self.new.count.faults result }

        ensures syncs { self.new.syncs ≡ self.old.syncs }
        ensures images { Follows (Torn at (length bytes.now)) (images_of self.old) (images_of self.new) }
        ensures time { Elapses (moment_of self.old) (moment_of self.new) (since_of self.old) (since_of self.new) (images_of self.new) }

        ensures fails { IsErr result ↔ WriteFails self.old at (length bytes.now) }
        ensures ok { OnOk result (self.new ≡ wrote self.old at bytes.now) }
        ensures refused { OnErr result (self.new ≡ refused self.old) }
    {
        if self.is_planned() || self.is_past_limits(at, bytes.len()) {
            self.refuse();
            return Err(Failed);
        }
        self.write(at, bytes);
        Ok(())
    }

    fn sync(&mut self) -> Result<(), Failed>
        ensures durable { OnOk result (IfSome (Some (bytes_of self.old)) (λ bytes. Only bytes (images_of self.new))) }
        ensures cause { HasCause self.old.count.faults self.new.count.faults result }
        ensures syncs { self.new.syncs ≡ (if is_ok result then counted self.old.syncs else self.old.syncs) }

        ensures told { Some (bytes_of self.new) ≡ Some (bytes_of self.old) }
        ensures no_more { (image : List ℕ) → images_of self.new image → images_of self.old image }
        ensures images { OnErr result (SameImages (images_of self.old) (images_of self.new)) }
        ensures time { Elapses (moment_of self.old) (moment_of self.new) (since_of self.old) (since_of self.new) (images_of self.new) }

        ensures planned { IsErr result ↔ IsPlanned self.old.count }
        ensures ok { OnOk result (self.new ≡ made_sure self.old) }
        ensures refused { OnErr result (self.new ≡ refused self.old) }
    {
        if self.is_planned() {
            self.refuse();
            return Err(Failed);
        }
        self.make_sure();
        Ok(())
    }
}
