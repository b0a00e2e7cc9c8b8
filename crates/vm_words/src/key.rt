ghost use Rattle.std.specs.Prelude.{◌≡◌};
ghost use Rattle.vm_words.specs.Key.{default_of, key_text, least_of, most_of, quantity_text};

use ram_block::{MAX_BLOCKS, MAX_PAGES, MAX_PHASE, MAX_RAM, MAX_VCPUS};

/// A key whose value is a number.
#[derive(Clone, Copy, Debug, PartialEq, Eq)]
pub(crate) enum Quantity {
    Vcpus,
    Blocks,
    Pages,
    Stop,
    Run,
    Seed,
    Relay,
    At,
    Len,
}

impl Quantity {
    /// How the key is written.
    pub(crate) fn text(self) -> &'static str
        ensures { result.now ≡ quantity_text self }
    {
        match self {
            Quantity::Vcpus => "vcpus",
            Quantity::Blocks => "blocks",
            Quantity::Pages => "pages",
            Quantity::Stop => "stop",
            Quantity::Run => "run",
            Quantity::Seed => "seed",
            Quantity::Relay => "relay",
            Quantity::At => "at",
            Quantity::Len => "len",
        }
    }

    /// The least number.
    pub(crate) fn least(self) -> u64
        ensures { result ≡ least_of self }
    {
        match self {
            Quantity::Vcpus | Quantity::Blocks | Quantity::Pages | Quantity::Len => 1,
            Quantity::Stop | Quantity::Run | Quantity::Seed | Quantity::Relay | Quantity::At => 0,
        }
    }

    /// The greatest number.
    pub(crate) fn most(self) -> u64
        ensures { result ≡ most_of self }
    {
        match self {
            Quantity::Vcpus => u64::from(MAX_VCPUS),
            Quantity::Blocks => u64::from(MAX_BLOCKS),
            Quantity::Pages => u64::from(MAX_PAGES),
            Quantity::Stop | Quantity::Run => u64::from(MAX_PHASE),
            Quantity::Seed => u64::MAX,
            Quantity::Relay => 64,
            Quantity::At => MAX_RAM - 1,
            // No page need be read whole, so this is not the size of one.
            Quantity::Len => 4096,
        }
    }

    /// The number where the key isn't given.
    pub(crate) fn default(self) -> u64
        ensures { result ≡ default_of self }
    {
        match self {
            Quantity::Pages => 256,
            Quantity::Vcpus | Quantity::Blocks | Quantity::Len => 1,
            Quantity::Stop | Quantity::Run | Quantity::Seed | Quantity::Relay | Quantity::At => 0,
        }
    }
}

/// A key of a line.
#[derive(Clone, Copy, Debug, PartialEq, Eq)]
pub(crate) enum KeyName {
    Image,
    Out,
    In,
    Mode,
    Turns,
    Serial,
    Number(Quantity),
}

impl KeyName {
    /// How the key is written.
    pub(crate) fn text(self) -> &'static str
        ensures { result.now ≡ key_text self }
    {
        match self {
            KeyName::Image => "image",
            KeyName::Out => "out",
            KeyName::In => "in",
            KeyName::Mode => "mode",
            KeyName::Turns => "turns",
            KeyName::Serial => "serial",
            KeyName::Number(quantity) => quantity.text(),
        }
    }
}
