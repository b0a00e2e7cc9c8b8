//! Tests of the lines of `layer` and `join`, over snapshot files and layers that are made by hand: what they print and write, byte
//! by byte, the line of each refusal, and what a call that fails leaves. They stand on `vm_cli` alone and on the files in memory.
#![tactic(auto)]

#[cfg(test)]
mod failures;
#[cfg(test)]
mod phases;
#[cfg(test)]
mod refusals;
#[cfg(test)]
mod steps;
