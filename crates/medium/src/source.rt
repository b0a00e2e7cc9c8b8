ghost use Rattle.std.specs.Prelude.{◌≡◌, ◌≤◌, List, ℕ, Option, length, IfOk, OnErr};
ghost use Rattle.medium.specs.Count.{HasCause};
ghost use Rattle.medium.specs.Bytes.{TakesFrom};

use crate::Failed;

/// An input that is read once, from its start to its end.
pub trait Source {
    /// The bytes that are left, where the object tells them.
    ghost left: { Self → Option (List ℕ) };

    /// How many calls have failed.
    ghost faults: { Self → ℕ };

    /// Moves the next bytes to the front of the buffer, and answers how many. For a buffer that isn't empty
    /// the answer is 0 exactly at the end.
    fn read(&mut self, buf: &mut [u8]) -> Result<usize, Failed>
        ensures within { IfOk result (λ n. n ≤ length buf.new) }
        ensures answer { IfOk result (λ n. TakesFrom (left self.old) (left self.new) n buf.new) }
        ensures stays { OnErr result (left self.new ≡ left self.old) }
        ensures cause { HasCause (faults self.old) (faults self.new) result };
}
