ghost use Rattle.std.specs.Prelude.{◌≡◌, ◌<◌, ◌≤◌, ◌↔◌, [], length, IfOk, IsTrue};

use ram_block::{MAX_INPUT, NoMemory};
use std::alloc::Global;
use std::marker::Model;

/// The most bytes that the device keeps.
pub const MAX_SERIAL_BYTES: usize = 65_536;

// The bit of STATUS that says that the device has room for a byte.
const ROOM: u8 = 0x20;

// The bit of STATUS that says that an input byte waits.
const INPUT_WAITS: u8 = 0x01;

/// The serial device. It takes all its memory when it is made.
#[derive(Drop)]
pub struct Serial {
    bytes: Vec<u8>,
    lost: u64,
    input: Vec<u8>,
    // How many bytes of the input were read.
    taken: usize,
}

impl Model for Serial {
    ghost use Rattle.std.specs.Prelude.{◌^◌, ◌<◌, ◌≤◌, drop, vec_len, vec_capacity};
    ghost use Rattle.ram_block.specs.declared.limits.TheConstants.{MAX_INPUT};
    ghost use Rattle.serial_timer.specs.declared.serial.TheConstants.{MAX_SERIAL_BYTES};
    ghost use Rattle.serial_timer.specs.Serial.{SerialData};

    ghost Value = { SerialData };

    ghost view = { λ s. record { bytes = s.bytes.items; lost = s.lost; input = drop s.taken s.input.items } };

    ghost invariant = { λ s. record {
      kept : vec_len s.bytes ≤ MAX_SERIAL_BYTES;
      room : MAX_SERIAL_BYTES ≤ vec_capacity s.bytes;
      lost : s.lost < 2 ^ 64;
      input : vec_len s.input ≤ MAX_INPUT;
      taken : s.taken ≤ vec_len s.input;
    } };
}

impl Serial {
    ghost use Rattle.serial_timer.specs.Serial.{IsSerial, sent, received_byte, received, status_of};

    /// A device that holds no byte, with this input.
    pub fn new(alloc: Global, input: &[u8]) -> Result<Serial, NoMemory>
        requires { length input.now ≤ MAX_INPUT }
        ensures { IfOk result (λ s. s ≡ record { bytes = []; lost = 0; input = input.now }) }
    {
        Serial::of(alloc, &[], 0, input)
    }

    /// A device that holds these bytes and has lost so many, with this input.
    pub fn of(alloc: Global, bytes: &[u8], lost: u64, input: &[u8]) -> Result<Serial, NoMemory>
        requires bytes { length bytes.now ≤ MAX_SERIAL_BYTES }
        requires input { length input.now ≤ MAX_INPUT }
        ensures { IfOk result (λ s. s ≡ record { bytes = bytes.now; lost = lost; input = input.now }) }
    {
        let mut kept = Vec::with_capacity(alloc, MAX_SERIAL_BYTES)?;
        kept.extend_from_slice(bytes)?;
        Ok(Serial {
            bytes: kept,
            lost,
            input: Vec::from_slice(alloc, input)?,
            taken: 0,
        })
    }

    /// A store to TX.
    #[tactic(auto, unfolding(crate::specs::Serial::sent))]
    pub fn write(&mut self, byte: u8)
        ensures sent { self.new ≡ sent self.old byte }
        ensures limits { IsSerial self.new }
    {
        if self.has_room() {
            self.bytes.push_reserved(byte);
        } else {
            self.lost = self.lost.saturating_add(1);
        }
    }

    /// A load of RX.
    #[tactic(auto, unfolding(crate::specs::Serial::received_byte, crate::specs::Serial::received))]
    pub fn read(&mut self) -> u8
        ensures byte { result ≡ received_byte self.old }
        ensures received { self.new ≡ received self.old }
        ensures limits { IsSerial self.new }
    {
        if self.taken == self.input.len() {
            return 0;
        }
        let byte = self.input[self.taken];
        self.taken += 1;
        byte
    }

    /// A load of STATUS.
    #[tactic(auto, unfolding(crate::specs::Serial::status_of))]
    pub fn status(&self) -> u8
        ensures status { result ≡ status_of self.now }
        ensures limits { IsSerial self.now }
    {
        let room = if self.has_room() { ROOM } else { 0 };
        let waits = if self.taken < self.input.len() {
            INPUT_WAITS
        } else {
            0
        };
        room | waits
    }

    /// The bytes that the guest wrote, the oldest first.
    pub fn bytes(&self) -> &[u8]
        ensures bytes { result.now ≡ self.now.bytes }
        ensures limits { IsSerial self.now }
    {
        self.bytes.as_slice()
    }

    /// How many bytes were lost, or the greatest u64 where more were.
    pub fn lost(&self) -> u64
        ensures lost { result ≡ self.now.lost }
        ensures limits { IsSerial self.now }
    {
        self.lost
    }

    /// The input that waits.
    pub fn input(&self) -> &[u8]
        ensures input { result.now ≡ self.now.input }
        ensures limits { IsSerial self.now }
    {
        &self.input[self.taken..]
    }

    fn has_room(&self) -> bool
        ensures { IsTrue result ↔ (length self.now.bytes < MAX_SERIAL_BYTES) }
    {
        self.bytes.len() < MAX_SERIAL_BYTES
    }
}
