//! Tests of the bus that threads share: vCPUs and a saver beside one another, the machine that a close gives beside the run
//! of the order that it returns, and what the saver copied beside the instant.
#![tactic(auto)]

#[cfg(test)]
mod compare;
#[cfg(test)]
mod devices;
#[cfg(test)]
mod found_held;
#[cfg(test)]
mod guests;
#[cfg(test)]
mod saves;
#[cfg(test)]
mod shared;
