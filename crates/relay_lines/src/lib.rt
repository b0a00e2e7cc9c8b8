//! Tests of the lines of a save with a relay: what they print and write, over files in memory, what a call on the file that fails
//! leaves, which pages are counted as faults, what a gate is told, and that pages are copied while one is written, over a file and a
//! gate of their own.
#![tactic(auto)]

#[cfg(test)]
mod failures;
#[cfg(test)]
mod faults;
#[cfg(test)]
mod gates;
#[cfg(test)]
mod meeting;
#[cfg(test)]
mod saves;
