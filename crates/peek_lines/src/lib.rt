//! Tests of the lines that look into a snapshot file, and of those that restore it page by page, over files that are made
//! by hand: what they print, and the line of each refusal. They stand on `vm_cli` alone and on the files in memory.
#![tactic(auto)]

#[cfg(test)]
mod peeks;
#[cfg(test)]
mod restores;
