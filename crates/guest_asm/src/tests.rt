use super::*;
use ram_block::NoMemory;
use std::alloc::Global;

mod bytes;
mod faults;
mod words;

// The first wrong line of a text and its kind, where it has one.
fn fault_in(alloc: Global, text: &[u8]) -> Result<Option<(u32, AsmKind)>, NoMemory> {
    if text.len() > MAX_TEXT {
        return Ok(None);
    }
    match assemble(alloc, text) {
        Ok(_) => Ok(None),
        Err(AsmFault::Line { line, kind }) => Ok(Some((line, kind))),
        Err(AsmFault::NoMemory) => Err(NoMemory),
    }
}

fn fault_of(alloc: Global, text: &str) -> Result<Option<(u32, AsmKind)>, NoMemory> {
    fault_in(alloc, text.as_bytes())
}

// The bytes that a text assembles to, where it has no wrong line.
fn bytes_of(alloc: Global, text: &str) -> Result<Option<Vec<u8>>, NoMemory> {
    if text.len() > MAX_TEXT {
        return Ok(None);
    }
    match assemble(alloc, text.as_bytes()) {
        Ok(bytes) => Ok(Some(bytes)),
        Err(AsmFault::Line { .. }) => Ok(None),
        Err(AsmFault::NoMemory) => Err(NoMemory),
    }
}

// Whether a text assembles to these words.
fn gives_words(alloc: Global, text: &str, words: &[u32]) -> Result<bool, NoMemory> {
    let mut bytes = Vec::new(alloc);
    for word in words {
        bytes.extend_from_slice(&word.to_le_bytes())?;
    }
    Ok(bytes_of(alloc, text)?.is_some_and(|made| made.as_slice() == bytes.as_slice()))
}
