ghost use Rattle.std.specs.Prelude.{◌≡◌, ◌≤◌, map, string_bytes, IfOk};
ghost use Rattle.vm_words.specs.Job.{input_given, job_given, mode_given, turns_given};
ghost use Rattle.vm_words.specs.Key.{least_of, most_of};
ghost use Rattle.vm_words.specs.Line.{has_mode, number_given, shape_given};

use crate::number::number_within;
use crate::turns::turns_named;
use crate::{
    CommandName, Input, Job, KeyName, MAX_TURNS, Mode, Quantity, Turns, turns_of, value_of,
};
use ram_block::{NoMemory, Shape};
use std::alloc::Global;

/// The number that the rest of a line gives, or its default.
pub(crate) fn number_given(rest: &[String], quantity: Quantity) -> u64
    ensures value { result ≡ number_given (map string_bytes rest.now) quantity }
    ensures least { least_of quantity ≤ result }
    ensures most { result ≤ most_of quantity }
{
    match value_of(rest, quantity.text()) {
        Some(value) => match number_within(quantity.least(), quantity.most(), value) {
            Some(number) => number,
            None => quantity.default(),
        },
        None => quantity.default(),
    }
}

/// The shape that the rest of a line gives, of so many vCPUs.
pub(crate) fn shape_given(rest: &[String], vcpus: u64) -> Shape
    requires some { 1 ≤ vcpus }
    requires limit { vcpus ≤ 8 }
    ensures { result ≡ shape_given (map string_bytes rest.now) vcpus }
{
    let blocks = number_given(rest, Quantity::Blocks);
    let pages = number_given(rest, Quantity::Pages);
    Shape::new(vcpus, blocks, pages).unwrap()
}

/// Whether the rest of a line gives this mode.
pub(crate) fn has_mode(rest: &[String], mode: &str) -> bool
    ensures { result ≡ has_mode (map string_bytes rest.now) mode.now }
{
    match value_of(rest, KeyName::Mode.text()) {
        Some(value) => mode == value,
        None => false,
    }
}

/// The job of a command and the rest of its line, where nothing is wrong with them.
pub(crate) fn job_given(
    alloc: Global,
    command: CommandName,
    rest: &[String],
) -> Result<Job, NoMemory>
    ensures { IfOk result (λ job. job ≡ job_given command (map string_bytes rest.now)) }
{
    match command {
        CommandName::Save => save_given(alloc, rest),
        CommandName::Restore => Ok(Job::Restore {
            run: number_given(rest, Quantity::Run) as u32,
            lazy: has_mode(rest, "lazy"),
        }),
        CommandName::Check => Ok(Job::CheckFile),
        CommandName::Asm => Ok(Job::Assemble),
        CommandName::Workload => Ok(Job::Workload {
            seed: number_given(rest, Quantity::Seed),
        }),
        CommandName::Peek => Ok(Job::Peek {
            shape: shape_given(rest, 1),
            at: number_given(rest, Quantity::At) as u32,
            len: number_given(rest, Quantity::Len) as u32,
        }),
        CommandName::Layer => Ok(Job::Layer {
            run: number_given(rest, Quantity::Run) as u32,
        }),
        CommandName::Join => Ok(Job::Join),
        CommandName::Record => record_given(alloc, rest),
        CommandName::Replay => replay_given(alloc, rest),
    }
}

// The job of a save.
fn save_given(alloc: Global, rest: &[String]) -> Result<Job, NoMemory>
    ensures { IfOk result (λ job. job ≡ job_given CommandName.Save (map string_bytes rest.now)) }
{
    let turns = turns_given(alloc, rest)?;
    let input = input_given(alloc, rest)?;
    Ok(Job::Save {
        shape: shape_given(rest, number_given(rest, Quantity::Vcpus)),
        stop: number_given(rest, Quantity::Stop) as u32,
        run: number_given(rest, Quantity::Run) as u32,
        mode: mode_given(rest),
        turns,
        input,
        relay: number_given(rest, Quantity::Relay) as u32,
    })
}

// The job of a record.
fn record_given(alloc: Global, rest: &[String]) -> Result<Job, NoMemory>
    ensures { IfOk result (λ job. job ≡ job_given CommandName.Record (map string_bytes rest.now)) }
{
    let input = input_given(alloc, rest)?;
    Ok(Job::Record {
        shape: shape_given(rest, number_given(rest, Quantity::Vcpus)),
        run: number_given(rest, Quantity::Run) as u32,
        input,
    })
}

// The job of a replay.
fn replay_given(alloc: Global, rest: &[String]) -> Result<Job, NoMemory>
    ensures { IfOk result (λ job. job ≡ job_given CommandName.Replay (map string_bytes rest.now)) }
{
    let input = input_given(alloc, rest)?;
    Ok(Job::Replay {
        shape: shape_given(rest, number_given(rest, Quantity::Vcpus)),
        input,
    })
}

// How a save runs.
fn mode_given(rest: &[String]) -> Mode
    ensures { result ≡ mode_given (map string_bytes rest.now) }
{
    if has_mode(rest, "threads") {
        Mode::Threads
    } else {
        Mode::Sliced
    }
}

// The turns of a save: none in threads, else those that are named, else those that the seed gives.
fn turns_given(alloc: Global, rest: &[String]) -> Result<Turns, NoMemory>
    ensures { IfOk result (λ turns. turns ≡ turns_given (map string_bytes rest.now)) }
{
    if has_mode(rest, "threads") {
        return Ok(Turns::of(Vec::new(alloc)));
    }
    match value_of(rest, KeyName::Turns.text()) {
        Some(text) => turns_named(alloc, text),
        None => {
            let vcpus = number_given(rest, Quantity::Vcpus) as u32;
            turns_of(
                alloc,
                number_given(rest, Quantity::Seed),
                vcpus,
                MAX_TURNS as u32,
            )
        }
    }
}

// The serial input.
fn input_given(alloc: Global, rest: &[String]) -> Result<Input, NoMemory>
    ensures { IfOk result (λ input. input ≡ input_given (map string_bytes rest.now)) }
{
    match value_of(rest, KeyName::Serial.text()) {
        Some(text) => Ok(Input::of(Vec::from_slice(alloc, text.as_bytes())?)),
        None => Ok(Input::of(Vec::new(alloc))),
    }
}
