//! `rvsnap`: background snapshots of a running RV64I machine.
#![tactic(auto)]

use ram_block::NoGate;
use std::process::ExitCode;
use vm_cli::{FileMedium, FileSource, Opening, OutSink, StandardHold, command_words, rvsnap};
use vm_words::value_of;

/// The exit status where memory for the words of the line is refused.
const NO_MEMORY: u8 = 7;

fn main(rt: HostRuntime) -> ExitCode {
    let _held = StandardHold::new(&rt);
    let Ok(words) = command_words(&rt, rt.alloc()) else {
        return ExitCode::from(NO_MEMORY);
    };
    let mut image = FileSource::new(&rt, value_of(&words, "image"));
    let mut input = FileMedium::new(&rt, value_of(&words, "in"), Opening::Existing);
    let mut output = FileMedium::new(&rt, value_of(&words, "out"), Opening::MadeIfMissing);
    let mut console = OutSink::new(&rt);
    let answer = rvsnap(
        &rt,
        rt.alloc(),
        &words,
        &mut image,
        &mut input,
        &mut output,
        &mut console,
        &NoGate,
    );
    ExitCode::from(answer.status)
}
