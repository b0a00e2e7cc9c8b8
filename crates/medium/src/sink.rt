ghost use Rattle.std.specs.Prelude.{◌≡◌, ◌++◌, List, ℕ, Option, option_map, OnOk, OnErr};
ghost use Rattle.medium.specs.Count.{HasCause};
ghost use Rattle.medium.specs.Bytes.{BecomesTold, AddsFront};

use crate::Failed;

/// An output that is written once, from its start on.
pub trait Sink {
    /// The bytes that it has taken, where the object tells them.
    ghost taken: { Self → Option (List ℕ) };

    /// How many calls have failed.
    ghost faults: { Self → ℕ };

    /// Takes all the bytes, or some of the first and fails.
    fn write(&mut self, bytes: &[u8]) -> Result<(), Failed>
        ensures all { OnOk result (taken self.new ≡ option_map (λ before. before ++ bytes.now) (taken self.old)) }
        ensures some { OnErr result (BecomesTold (AddsFront bytes.now) (taken self.old) (taken self.new)) }
        ensures cause { HasCause (faults self.old) (faults self.new) result };
}
