//! Tests of a phase on threads, over machines and files made by hand.
#![tactic(auto)]

#[cfg(test)]
mod phase;
#[cfg(test)]
mod phases;
