ghost use Rattle.std.specs.Prelude.{◌≡◌, ◌≤◌, ◌+◌, ◌^◌, List, ℕ, Option, Some, length, IfOk, IfSome, IsOk};
ghost use Rattle.std.proofs.Common.{inl};
ghost use Rattle.medium.specs.Count.{HasCause};
ghost use Rattle.medium.specs.Bytes.{ReadsAt};
ghost use Rattle.medium.specs.States.{Leaves};

use crate::{Failed, Readable};
use std::marker::Model;

/// Bytes in memory, to be read. No call fails, and a crash leaves the bytes.
#[derive(Drop)]
pub struct MemBytes {
    bytes: Vec<u8>,
}

impl Model for MemBytes {
    ghost use Rattle.std.specs.Prelude.{List, ℕ};

    ghost Value = { List ℕ };

    ghost view = { λ b. b.bytes.items };
}

impl MemBytes {
    pub fn new(bytes: Vec<u8>) -> MemBytes
        ensures { result ≡ bytes.items }
    {
        MemBytes { bytes }
    }
}

impl Readable for MemBytes {
    ghost use Rattle.medium.specs.Memory.{still_state};

    ghost told = { λ b. Some b };

    ghost faults = { λ b. 0 };

    ghost syncs = { λ b. 0 };

    ghost may_leave = { λ b image. image ≡ b };

    ghost moment = { λ b. 0 };

    ghost left_since = { λ b t image. image ≡ b };

    ghost told_is_image = { λ b bytes told. Prim.cc };

    ghost now_counts = { λ b t image le now. now };

    ghost only_now = { λ b image left. left };

    fn len(&mut self) -> Result<u64, Failed>
        ensures answer { IfOk result (λ n. n ≡ length self.old) }
        ensures cause { HasCause 0 0 result }
        ensures leaves { Leaves (still_state self.old) (still_state self.new) }

        ensures never_fails { IsOk result }
        ensures stays { self.new ≡ self.old }
    {
        Ok(self.bytes.len() as u64)
    }

    fn read_at(&mut self, at: u64, buf: &mut [u8]) -> Result<usize, Failed>
        requires { at + length buf.old ≤ 2 ^ 40 }
        ensures within { IfOk result (λ n. n ≤ length buf.new) }
        ensures answer { IfOk result (λ n. ReadsAt self.old at n buf.new) }
        ensures cause { HasCause 0 0 result }
        ensures leaves { Leaves (still_state self.old) (still_state self.new) }

        ensures never_fails { IsOk result }
        ensures stays { self.new ≡ self.old }
    {
        Ok(read_bytes(&self.bytes, at, buf))
    }
}

// Puts the bytes from a place on into the front of the buffer, and answers how many.
pub(crate) fn read_bytes(bytes: &[u8], at: u64, buf: &mut [u8]) -> usize
    ensures within { result ≤ length buf.new }
    ensures answer { ReadsAt bytes.now at result buf.new }
{
    if at >= bytes.len() as u64 {
        return 0;
    }
    let from = at as usize;
    let n = buf.len().min(bytes.len() - from);
    buf[..n].copy_from_slice(&bytes[from..from + n]);
    n
}
