use rv64i_step::Vcpu;
use serial_timer::{Serial, Timer};

/// What a device text tells: a machine at rest, but for its shape and its RAM.
#[derive(Drop)]
pub struct Devices {
    pub vcpus: Vec<Vcpu>,
    pub serial: Serial,
    pub timer: Timer,
    pub clock: u64,
}
