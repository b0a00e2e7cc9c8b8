//! Layers: what a machine has other than a base machine of the same shape. A layer is put, and base and layer are joined
//! to the machine, or the first piece of the layer that is wrong is named. It stands on `device_state` and `mig_stream`,
//! which put and read the pieces, and on `medium`, `flat_machine`, `rv64i_step`, `serial_timer` and `ram_block`.
#![tactic(auto)]

mod count;
mod format;
mod front;
mod join;
mod last;
mod laws;
mod pages;
mod piece;
mod put;
mod refusal;

pub use count::pages_in;
pub use format::{ENTRY_LEN, FRONT_LEN, MAGIC, VERSION};
pub use join::join_layer;
pub use laws::{a_layer_is_joined_back, a_layer_is_joined_or_refused};
pub use put::put_layer;
pub use refusal::{LayerFault, LayerRefusal};

#[cfg(test)]
mod tests;
