//! Tests of the lines that read a snapshot file, over files that are made by hand: what `check` and `restore` print, and
//! the line of each refusal. They stand on `vm_cli` alone and on the files in memory.
#![tactic(auto)]

#[cfg(test)]
mod consoles;
#[cfg(test)]
mod refusals;
#[cfg(test)]
mod reports;
