ghost use Rattle.std.specs.Prelude.{◌≡◌};
ghost use Rattle.vm_words.specs.Form.{is_mode, is_of_form};

use crate::number::number_within;
use crate::turns::are_turns;
use crate::{CommandName, KeyName, MAX_TURNS};
use ram_block::MAX_INPUT;

/// Whether a value is of the form that the command's key has.
pub(crate) fn is_of_form(command: CommandName, key: KeyName, value: &str) -> bool
    ensures { result ≡ is_of_form command key value.now }
{
    match key {
        KeyName::Image | KeyName::Out | KeyName::In => !value.is_empty(),
        KeyName::Mode => is_mode(command, value),
        KeyName::Turns => value.len() <= MAX_TURNS && are_turns(value),
        KeyName::Serial => value.len() <= MAX_INPUT,
        KeyName::Number(quantity) => {
            number_within(quantity.least(), quantity.most(), value).is_some()
        }
    }
}

// Whether a value is a mode of the command.
fn is_mode(command: CommandName, value: &str) -> bool
    ensures { result ≡ is_mode command value.now }
{
    match command {
        CommandName::Restore => value == "eager" || value == "lazy",
        _ => value == "sliced" || value == "threads",
    }
}
