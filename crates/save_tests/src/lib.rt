//! Tests of the lines of `save` and `workload`, over files in memory: what is printed, the orders of both phases, the file byte
//! by byte, and what a restore of it prints.
#![tactic(auto)]

#[cfg(test)]
mod devices;
#[cfg(test)]
mod failures;
#[cfg(test)]
mod layouts;
#[cfg(test)]
mod phases;
#[cfg(test)]
mod row;
#[cfg(test)]
mod sources;
#[cfg(test)]
mod workloads;
