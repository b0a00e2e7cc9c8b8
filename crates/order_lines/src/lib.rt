//! Tests of the lines of `record` and `replay`, over files in memory: the order file byte by byte, what is printed, the line of
//! each refusal, what a call that fails leaves, and that the vCPUs of a record run beside one another.
#![tactic(auto)]

#[cfg(test)]
mod compare;
#[cfg(test)]
mod failures;
#[cfg(test)]
mod guests;
#[cfg(test)]
mod meeting;
#[cfg(test)]
mod records;
#[cfg(test)]
mod replays;
