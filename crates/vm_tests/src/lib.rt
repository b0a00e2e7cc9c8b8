//! Tests that cross crates: whole lines of words over files in memory.
#![tactic(auto)]

#[cfg(test)]
mod assembly;
#[cfg(test)]
mod calls;
#[cfg(test)]
mod fault_lines;
#[cfg(test)]
mod guest;
#[cfg(test)]
mod images;
#[cfg(test)]
mod jobs;
