//! Tests of the lines that run on threads: what they print and write, over files in memory, and that each vCPU runs while the
//! saver writes, over a file and a gate of their own.
#![tactic(auto)]

#[cfg(test)]
mod meeting;
#[cfg(test)]
mod saves;
