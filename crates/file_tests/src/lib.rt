//! Tests of whole snapshot files over files in memory: files by hand and files of machines, what they load to and why they
//! are refused. They stand on `loader` and on what makes and runs machines.
#![tactic(auto)]

#[cfg(test)]
mod guest;
#[cfg(test)]
mod phases;
#[cfg(test)]
mod refusals;
#[cfg(test)]
mod results;
#[cfg(test)]
mod snapshots;
