//! Tests of the two ends of a relay over the bus of one thread: which pages go in and come out, in which order and with which
//! bytes, how many wait between the ends, and what is left once a save has failed.
#![tactic(auto)]

#[cfg(test)]
mod drops;
#[cfg(test)]
mod ends;
#[cfg(test)]
mod passes;
#[cfg(test)]
mod plants;
