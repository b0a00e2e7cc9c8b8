//! Tests of whole saves on one thread over files in memory: which calls a save makes on its file, and what a crash at any of
//! them leaves for the loader.
#![tactic(auto)]

#[cfg(test)]
mod calls;
#[cfg(test)]
mod crashes;
#[cfg(test)]
mod held_once;
#[cfg(test)]
mod releases;
#[cfg(test)]
mod save;
#[cfg(test)]
mod turns;
