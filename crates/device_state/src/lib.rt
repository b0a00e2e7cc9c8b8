//! The device text of a machine: its vCPUs, its serial device, its timer and its clock. It is put and read, and a text
//! that was put is read back. It stands on `mig_stream`, `medium`, `flat_machine`, `rv64i_step`, `serial_timer` and
//! `ram_block`.
#![tactic(auto)]

mod devices;
mod fault;
mod format;
mod get;
mod get_serial;
mod get_timer;
mod get_vcpu;
mod kind;
mod laws;
mod pieces;
mod put;

pub use devices::Devices;
pub use fault::{DeviceFault, DeviceReadFault};
pub use format::{
    CPU_VERSION, FIRST_DEVICE, SERIAL_VERSION, SERIAL_VERSION_WITHOUT_INPUT, TIMER_VERSION,
};
pub use get::get_devices;
pub use laws::{
    a_device_text_is_read_back, a_device_text_tells_its_devices, what_is_read_is_a_device_text,
};
pub use put::put_devices;

#[cfg(test)]
mod tests;
