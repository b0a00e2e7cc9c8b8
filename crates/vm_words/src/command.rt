ghost use Rattle.std.specs.Prelude.{◌≡◌, find};
ghost use Rattle.std.specs.Str.{bytes_eq};
ghost use Rattle.vm_words.specs.Command.{command_named, command_text, key_named, optional_of, required_of};
ghost use Rattle.vm_words.specs.Key.{key_text};

use crate::KeyName::{self, Image, In, Mode, Number, Out, Serial, Turns};
use crate::Quantity::{At, Blocks, Len, Pages, Relay, Run, Seed, Stop, Vcpus};

/// The command of a line, its word 0.
#[derive(Clone, Copy, Debug, PartialEq, Eq)]
pub(crate) enum CommandName {
    Save,
    Restore,
    Check,
    Asm,
    Workload,
    Peek,
    Layer,
    Join,
    Record,
    Replay,
}

const COMMANDS: [CommandName; 10] = [
    CommandName::Save,
    CommandName::Restore,
    CommandName::Check,
    CommandName::Asm,
    CommandName::Workload,
    CommandName::Peek,
    CommandName::Layer,
    CommandName::Join,
    CommandName::Record,
    CommandName::Replay,
];

impl CommandName {
    /// The command that is written so.
    pub(crate) fn named(text: &str) -> Option<CommandName>
        ensures { result ≡ command_named text.now }
    {
        COMMANDS
            .iter()
            .copied()
            .find(|command| command.text() == text)
    }

    /// How the command is written.
    pub(crate) fn text(self) -> &'static str
        ensures { result.now ≡ command_text self }
    {
        match self {
            CommandName::Save => "save",
            CommandName::Restore => "restore",
            CommandName::Check => "check",
            CommandName::Asm => "asm",
            CommandName::Workload => "workload",
            CommandName::Peek => "peek",
            CommandName::Layer => "layer",
            CommandName::Join => "join",
            CommandName::Record => "record",
            CommandName::Replay => "replay",
        }
    }

    /// The keys that have to be given.
    pub(crate) fn required(self) -> &'static [KeyName]
        ensures { result.now ≡ required_of self }
    {
        match self {
            CommandName::Save => &[Image, Out],
            CommandName::Restore => &[In],
            CommandName::Check => &[In],
            CommandName::Asm => &[Image, Out],
            CommandName::Workload => &[Out],
            CommandName::Peek => &[In, Number(At), Number(Len)],
            CommandName::Layer => &[In, Out],
            CommandName::Join => &[In, Image, Out],
            CommandName::Record => &[Image, Out],
            CommandName::Replay => &[Image, In],
        }
    }

    /// The keys that may be given.
    pub(crate) fn optional(self) -> &'static [KeyName]
        ensures { result.now ≡ optional_of self }
    {
        match self {
            CommandName::Save => &[
                Number(Vcpus),
                Number(Blocks),
                Number(Pages),
                Number(Stop),
                Number(Run),
                Mode,
                Number(Seed),
                Turns,
                Serial,
                Number(Relay),
            ],
            CommandName::Restore => &[Number(Run), Mode],
            CommandName::Check | CommandName::Asm | CommandName::Join => &[],
            CommandName::Workload => &[Number(Seed)],
            CommandName::Peek => &[Number(Blocks), Number(Pages)],
            CommandName::Layer => &[Number(Run)],
            CommandName::Record => &[
                Number(Vcpus),
                Number(Blocks),
                Number(Pages),
                Number(Run),
                Serial,
            ],
            CommandName::Replay => &[Number(Vcpus), Number(Blocks), Number(Pages), Serial],
        }
    }

    /// The key of the command that is written so.
    pub(crate) fn key(self, text: &str) -> Option<KeyName>
        ensures { result ≡ key_named self text.now }
    {
        match key_among(self.required(), text) {
            Some(key) => Some(key),
            None => key_among(self.optional(), text),
        }
    }
}

// The key among these that is written so.
fn key_among(keys: &[KeyName], text: &str) -> Option<KeyName>
    ensures { result ≡ find (λ key. bytes_eq (key_text key) text.now) keys.now }
{
    keys.iter().copied().find(|key| key.text() == text)
}
