ghost use Rattle.std.specs.Prelude.{◌≡◌};

use std::marker::Model;

/// The bytes that a guest reads from its serial device.
#[derive(Debug, Drop)]
pub struct Input {
    bytes: Vec<u8>,
}

impl Model for Input {
    ghost use Rattle.std.specs.Prelude.{ℕ, List};

    ghost Value = { List ℕ };

    ghost view = { λ i. i.bytes.items };
}

impl Input {
    /// The bytes of a list.
    pub(crate) fn of(bytes: Vec<u8>) -> Input
        ensures { result ≡ bytes.items }
    {
        Input { bytes }
    }

    /// All bytes, in their order.
    pub fn bytes(&self) -> &[u8]
        ensures { result.now ≡ self.now }
    {
        &self.bytes
    }
}
