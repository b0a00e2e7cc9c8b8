ghost use Rattle.std.specs.Prelude.{◌≡◌, ◌≤◌, ◌+◌, ◌^◌, List, ℕ, length, option_map, is_ok, if◌then◌else◌, OnOk, OnErr, IfSome};
ghost use Rattle.medium.specs.Count.{HasCause, counted};
ghost use Rattle.medium.specs.Crash.{Torn, Follows, SameImages, Only, Elapses};
ghost use Rattle.medium.specs.Bytes.{written, BecomesTold};

use crate::{Failed, Readable};

/// A file that can be written in place, too.
///
/// Until a sync that answers Ok, a crash may leave any bytes in each range that was written and past the old
/// end, and any length between the old one and the new.
pub trait Medium: Readable {
    /// Puts all the bytes at their place. A gap before the place becomes zeros.
    fn write_at(&mut self, at: u64, bytes: &[u8]) -> Result<(), Failed>
        requires { at + length bytes.now ≤ 2 ^ 40 }
        ensures written { OnOk result (Self.told self.new ≡ option_map (written at bytes.now) (Self.told self.old)) }
        ensures torn { OnErr result (BecomesTold (Torn at (length bytes.now)) (Self.told self.old) (Self.told self.new)) }
        ensures cause { HasCause (Self.faults self.old) (Self.faults self.new) result }

        ensures syncs { Self.syncs self.new ≡ Self.syncs self.old }
        ensures images { Follows (Torn at (length bytes.now)) (Self.may_leave self.old) (Self.may_leave self.new) }
        ensures time { Elapses (Self.moment self.old) (Self.moment self.new) (Self.left_since self.old) (Self.left_since self.new) (Self.may_leave self.new) };

    /// Makes sure of all that was written.
    fn sync(&mut self) -> Result<(), Failed>
        ensures durable { OnOk result (IfSome (Self.told self.old) (λ bytes. Only bytes (Self.may_leave self.new))) }
        ensures cause { HasCause (Self.faults self.old) (Self.faults self.new) result }
        ensures syncs { Self.syncs self.new ≡ (if is_ok result then counted (Self.syncs self.old) else Self.syncs self.old) }

        ensures told { Self.told self.new ≡ Self.told self.old }
        ensures no_more { (image : List ℕ) → Self.may_leave self.new image → Self.may_leave self.old image }
        ensures images { OnErr result (SameImages (Self.may_leave self.old) (Self.may_leave self.new)) }
        ensures time { Elapses (Self.moment self.old) (Self.moment self.new) (Self.left_since self.old) (Self.left_since self.new) (Self.may_leave self.new) };
}
