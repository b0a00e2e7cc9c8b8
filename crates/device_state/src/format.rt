/// The id of the first section of a device; the others follow.
pub const FIRST_DEVICE: u32 = 3;

/// The version of the section of a vCPU.
pub const CPU_VERSION: u32 = 1;

/// The version of the section of the timer.
pub const TIMER_VERSION: u32 = 1;

/// The version of a section of the serial device that tells its input.
pub const SERIAL_VERSION: u32 = 2;

/// The version of one that tells no input.
pub const SERIAL_VERSION_WITHOUT_INPUT: u32 = 1;

/// The bytes of a section's start: its type, its id, and the length of its name.
pub const START_BYTES: usize = 6;

/// The bytes of a vCPU's registers, its pc, its steps and its state.
pub const VCPU_BYTES: usize = 265;

/// Where in these bytes the pc, the steps and the state stand.
pub const PC_AT: usize = 248;

pub const STEPS_AT: usize = 256;

pub const STATE_AT: usize = 264;

/// The bytes of the rest of a serial section's header, of which the last is the version.
pub const SERIAL_HEADER_BYTES: usize = 14;

/// The bytes of what a serial section says before the bytes that it holds, with its input's length and without.
pub const SERIAL_HEAD_BYTES: usize = 16;

pub const SERIAL_HEAD_BYTES_WITHOUT_INPUT: usize = 12;

/// The bytes of the clock and of the timer's compare value.
pub const TIMER_BYTES: usize = 16;
