ghost use Rattle.std.specs.Prelude.{None};

use crate::counted::count_fault;
use medium::{Failed, Sink};
use std::io;
use std::io::Write;

/// The standard output.
#[derive(Drop)]
pub struct OutSink<'a, R: Print> {
    rt: &'a R,
    faults: u64,
}

impl<'a, R: Print> OutSink<'a, R> {
    pub fn new(rt: &'a R) -> Self {
        OutSink { rt, faults: 0 }
    }
}

impl<R: Print> Sink for OutSink<'_, R> {
    ghost taken = { λ _. None };

    ghost faults = { λ s. s.faults };

    fn write(&mut self, bytes: &[u8]) -> Result<(), Failed> {
        let outcome = io::writer(self.rt).write_all(bytes).map_err(|_| Failed);
        count_fault(&mut self.faults, outcome)
    }
}
