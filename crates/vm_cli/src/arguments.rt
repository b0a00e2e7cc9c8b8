use ram_block::NoMemory;
use std::alloc::{AllocError, Global};
use std::env::{Env, FillError};

/// The words of the command line, without the program's name. A word that isn't UTF-8 is an empty one.
pub fn command_words<R: Env>(rt: &R, alloc: Global) -> Result<Vec<String>, NoMemory> {
    let mut words = Vec::new(alloc);
    for i in 1..usize::MAX {
        let Some(word) = argument(rt, alloc, i)? else {
            break;
        };
        words.push(word)?;
    }
    Ok(words)
}

// The argument with this number, in a buffer that is doubled until it fits.
fn argument<R: Env>(rt: &R, alloc: Global, i: usize) -> Result<Option<String>, NoMemory> {
    let mut capacity = 256usize;
    for _ in 0..usize::BITS {
        let mut bytes = blank(alloc, capacity)?;
        match rt.arg(i, &mut bytes) {
            Ok(len) => {
                bytes.truncate(len);
                return Ok(Some(text_of(alloc, bytes)));
            }
            Err(FillError::NotPresent) => return Ok(None),
            Err(FillError::TooLong) => capacity = capacity.saturating_add(capacity),
        }
    }
    Err(NoMemory)
}

fn blank(alloc: Global, len: usize) -> Result<Vec<u8>, AllocError> {
    vec![in alloc; 0; len]
}

// The text of these bytes, or an empty one.
fn text_of(alloc: Global, bytes: Vec<u8>) -> String {
    match String::from_utf8(bytes) {
        Ok(text) => text,
        Err(_) => String::new(alloc),
    }
}
