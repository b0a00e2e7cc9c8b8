ghost use Rattle.std.specs.Prelude.{◌≡◌, ◌≤◌, ◌+◌, ◌^◌, List, ℕ, Option, Some, length, IfOk, IfSome};
ghost use Rattle.medium.specs.Count.{HasCause};
ghost use Rattle.medium.specs.Bytes.{ReadsAt};
ghost use Rattle.medium.specs.States.{Leaves, file_by};

use crate::Failed;

/// A file that can be read at any place, in bytes from its start.
pub trait Readable {
    /// The bytes, where the object tells them.
    ghost told: { Self → Option (List ℕ) };

    /// How many calls have failed.
    ghost faults: { Self → ℕ };

    /// How many syncs have answered Ok.
    ghost syncs: { Self → ℕ };

    /// What a crash at this moment may leave: the images.
    ghost may_leave: { Self → List ℕ → Type 0 };

    /// This moment, as a number that never falls.
    ghost moment: { Self → ℕ };

    /// What a crash at some moment from that one on might have left.
    ghost left_since: { Self → ℕ → List ℕ → Type 0 };

    /// How many bytes there are.
    fn len(&mut self) -> Result<u64, Failed>
        ensures answer { IfOk result (λ n. IfSome (told self.old) (λ bytes. n ≡ length bytes)) }
        ensures cause { HasCause (faults self.old) (faults self.new) result }
        ensures leaves { Leaves (file_by told faults syncs may_leave moment left_since self.old)
            (file_by told faults syncs may_leave moment left_since self.new) };

    /// Puts the bytes from a place on into the front of the buffer, and answers how many: fewer than the
    /// buffer holds only where the file ends there.
    fn read_at(&mut self, at: u64, buf: &mut [u8]) -> Result<usize, Failed>
        requires { at + length buf.old ≤ 2 ^ 40 }
        ensures within { IfOk result (λ n. n ≤ length buf.new) }
        ensures answer { IfOk result (λ n. IfSome (told self.old) (λ bytes. ReadsAt bytes at n buf.new)) }
        ensures cause { HasCause (faults self.old) (faults self.new) result }
        ensures leaves { Leaves (file_by told faults syncs may_leave moment left_since self.old)
            (file_by told faults syncs may_leave moment left_since self.new) };

    /// The bytes, where told, are an image.
    ghost told_is_image: { (file : Self) (bytes : List ℕ) → told file ≡ Some bytes → may_leave file bytes };

    /// An image is one since each earlier moment.
    ghost now_counts: { (file : Self) (t : ℕ) (image : List ℕ) → t ≤ moment file → may_leave file image → left_since file t image };

    /// Since this moment there is no other.
    ghost only_now: { (file : Self) (image : List ℕ) → left_since file (moment file) image → may_leave file image };
}
