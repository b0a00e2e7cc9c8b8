//! Prints generated instructions for a comparison with an outside assembler: a line for each, with its
//! word and its statement as a listing has it. The one argument is the number of lines; without it nothing is printed.
#![tactic(auto)]

ghost use Rattle.std.specs.Prelude.{◌≡◌, ◌≤◌, IfOk};
ghost use Rattle.guest_asm.specs.Listing.{word_line};

mod generator;

use generator::Generator;
use guest_asm::listing;
use ram_block::NoMemory;
use std::alloc::Global;
use std::env::{Env, FillError};
use std::io::{self, BufWriter, Write};

// The greatest number of lines.
const MOST_LINES: u32 = 100_000;

fn main(rt: HostRuntime) -> io::Result<()> {
    let lines = wanted_lines(&rt)?;
    let mut out = BufWriter::new(rt.alloc(), io::writer(&rt))?;
    print_lines(rt.alloc(), &mut out, lines)?;
    out.flush()
}

fn wanted_lines<R: Env>(rt: &R) -> io::Result<u32> {
    let mut first = [0; 16];
    let len = match rt.arg(1, &mut first) {
        Ok(len) => len,
        Err(FillError::NotPresent) => return Ok(0),
        Err(FillError::TooLong) => return Err(no_number()),
    };
    match rt.arg(2, &mut [0; 1]) {
        Err(FillError::NotPresent) => number(&first[..len]),
        _ => Err(no_number()),
    }
}

fn number(digits: &[u8]) -> io::Result<u32>
    ensures { IfOk result (λ n. n ≤ MOST_LINES) }
{
    let Ok(text) = str::from_utf8(digits) else {
        return Err(no_number());
    };
    match text.parse::<u32>() {
        Ok(number) if number <= MOST_LINES && !text.starts_with('+') => Ok(number),
        _ => Err(no_number()),
    }
}

fn no_number() -> io::Error {
    io::Error::from(io::ErrorKind::InvalidInput)
}

fn print_lines<W: Write>(alloc: Global, out: &mut W, lines: u32) -> io::Result<()> {
    let mut generator = Generator::new();
    for _ in 0..lines {
        let Some(word) = generator.instruction() else {
            return Err(io::Error::from(io::ErrorKind::Other));
        };
        let Ok(statement) = statement_of(alloc, word) else {
            return Err(io::Error::from(io::ErrorKind::OutOfMemory));
        };
        write!(out, "{word:#010x} ")?;
        out.write_all(&statement)?;
    }
    Ok(())
}

// The line of a word in a listing: the statement of its instruction.
#[tactic(auto, using(crate::proofs::OneWord::one_word))]
fn statement_of(alloc: Global, word: u32) -> Result<Vec<u8>, NoMemory>
    ensures { IfOk result (λ line. line.items ≡ word_line word) }
{
    listing(alloc, &word.to_le_bytes())
}
