use medium::{FailPlan, MemMedium, MemSink, MemSource};
use std::alloc::{AllocError, Global};
use vm_cli::Answer;

/// Which of the calls on a file fail, counted from 1.
#[derive(Clone, Copy)]
pub enum Fails {
    Never,
    At(u64),
    From(u64),
}

impl Fails {
    /// The plan by which they fail.
    pub fn plan(self, alloc: Global) -> Result<FailPlan, AllocError> {
        Ok(match self {
            Fails::Never => FailPlan {
                calls: Vec::new(alloc),
                from: None,
            },
            Fails::At(call) => FailPlan {
                calls: vec![in alloc; call]?,
                from: None,
            },
            Fails::From(call) => FailPlan {
                calls: Vec::new(alloc),
                from: Some(call),
            },
        })
    }
}

/// What a line works on, in memory.
#[derive(Drop)]
pub struct Files {
    pub image: MemSource,
    pub input: MemMedium,
    pub output: MemMedium,
    pub console: MemSink,
}

/// A job's answer, and what it worked on.
#[derive(Drop)]
pub struct Outcome {
    pub answer: Answer,
    pub files: Files,
}

impl Outcome {
    /// What was printed.
    pub fn printed(&self) -> &str {
        str::from_utf8(self.files.console.bytes()).unwrap_or("no text")
    }

    /// The bytes that the output has now.
    pub fn written(&self) -> &[u8] {
        self.files.output.bytes()
    }
}

/// The words of a line.
pub fn words(alloc: Global, line: &[&str]) -> Result<Vec<String>, AllocError> {
    let mut words = Vec::new(alloc);
    for word in line {
        words.push(String::from_str(alloc, word)?)?;
    }
    Ok(words)
}
