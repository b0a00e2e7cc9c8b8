use crate::files::{Fails, Files, Outcome, words};
use medium::{MemMedium, MemSink, MemSource};
use ram_block::{Gate, NoMemory};
use std::alloc::Global;
use std::sync::Wait;
use std::thread::Threads;
use vm_cli::{Fault, rvsnap, rvsnap_still};

/// How many of the writes of a file may wait for a sync.
const WRITES: usize = 600;

/// A line of words over files in memory, and how it has to end.
#[derive(Clone, Copy)]
pub struct Line<'a> {
    pub words: &'a [&'static str],
    pub image: &'a [u8],
    pub input: &'a [u8],
    /// The bytes that the output has before, and for how many it has room.
    pub output: &'a [u8],
    pub room: u64,
    pub console_room: u64,
    pub image_fails: Fails,
    pub input_fails: Fails,
    pub output_fails: Fails,
    pub console_fails: Fails,
    pub status: u8,
    /// The fault, where the test names it beside its line.
    pub fault: Option<Fault>,
    pub printed: &'a str,
    /// The members of the two orders.
    pub first: &'a [u8],
    pub second: &'a [u8],
    /// The bytes that the output has afterwards.
    pub written: &'a [u8],
}

/// No words over empty files: no call fails, and the line ends well.
pub const LINE: Line<'static> = Line {
    words: &[],
    image: &[],
    input: &[],
    output: &[],
    room: 2_200_000,
    console_room: 262_144,
    image_fails: Fails::Never,
    input_fails: Fails::Never,
    output_fails: Fails::Never,
    console_fails: Fails::Never,
    status: 0,
    fault: None,
    printed: "",
    first: &[],
    second: &[],
    written: &[],
};

/// A line that calls neither its image nor its output: each such call would fail.
pub const READER: Line<'static> = Line {
    image_fails: Fails::From(1),
    output_fails: Fails::From(1),
    ..LINE
};

/// The files of a line.
pub fn work_on(alloc: Global, line: &Line) -> Result<Files, NoMemory> {
    let output_room = line.room.max(line.output.len() as u64);
    Ok(Files {
        image: MemSource::new(line.image.to_vec(alloc)?, line.image_fails.plan(alloc)?),
        input: MemMedium::new(
            alloc,
            line.input.to_vec(alloc)?,
            line.input.len() as u64,
            WRITES,
            line.input_fails.plan(alloc)?,
        )?,
        output: MemMedium::new(
            alloc,
            line.output.to_vec(alloc)?,
            output_room,
            WRITES,
            line.output_fails.plan(alloc)?,
        )?,
        console: MemSink::new(alloc, line.console_room, line.console_fails.plan(alloc)?)?,
    })
}

/// The answer to a line, by the call without threads.
pub fn answer(alloc: Global, line: &Line) -> Result<Outcome, NoMemory> {
    let words = words(alloc, line.words)?;
    let mut files = work_on(alloc, line)?;
    let answer = rvsnap_still(
        alloc,
        &words,
        &mut files.image,
        &mut files.input,
        &mut files.output,
        &mut files.console,
    );
    Ok(Outcome { answer, files })
}

/// The answer to a line, by the call with threads, which tells this gate.
pub fn answer_on_threads<R: Threads + Wait + Sync, G: Gate>(
    rt: &R,
    alloc: Global,
    line: &Line,
    gate: &G,
) -> Result<Outcome, NoMemory> {
    let words = words(alloc, line.words)?;
    let mut files = work_on(alloc, line)?;
    let answer = rvsnap(
        rt,
        alloc,
        &words,
        &mut files.image,
        &mut files.input,
        &mut files.output,
        &mut files.console,
        gate,
    );
    Ok(Outcome { answer, files })
}
