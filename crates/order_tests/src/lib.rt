//! Tests of order files that are made by hand: the orders that they are read as, why others are refused, and the machines
//! that replays of them make. They stand on `order_log`, on machines, and on the files in memory.
#![tactic(auto)]

#[cfg(test)]
mod files;
#[cfg(test)]
mod refusals;
#[cfg(test)]
mod replays;
#[cfg(test)]
mod texts;
