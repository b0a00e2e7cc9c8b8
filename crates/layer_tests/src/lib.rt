//! Tests of layers as bytes: the first wrong piece refuses a layer, and what base and layer join to. The layers are made by
//! hand, or of machines that ran. They stand on `snap_layer` and on machines.
#![tactic(auto)]

#[cfg(test)]
mod bytes;
#[cfg(test)]
mod joins;
#[cfg(test)]
mod machines;
#[cfg(test)]
mod refusals;
