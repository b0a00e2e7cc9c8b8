ghost use Rattle.std.specs.Prelude.{◌≡◌, ◌<◌, ◌^◌};
ghost use Rattle.flat_machine.specs.Cell.{serial_after, serial_gives, timer_after, timer_gives};
ghost use Rattle.flat_machine.specs.Fits.{FitsSerial, FitsTimer};
ghost use Rattle.serial_timer.specs.Serial.{IsSerial};

use ram_block::{Place, SerialReg};
use rv64i_step::Request;
use serial_timer::{Serial, Timer};

/// The serial device's part of an event: answers what a load gives, and 0 to a store.
#[tactic(auto, unfolding(crate::specs::Cell::serial_gives, crate::specs::Cell::serial_after))]
pub fn apply_to_serial(serial: &mut Serial, request: &Request) -> u64
    requires { FitsSerial request.now }
    ensures gives { result ≡ serial_gives request.now serial.old }
    ensures after { serial.new ≡ serial_after request.now serial.old }
    ensures limits { IsSerial serial.new }
{
    match *request {
        Request::Load {
            place: Place::Serial(SerialReg::Rx),
            ..
        } => u64::from(serial.read()),
        Request::Load {
            place: Place::Serial(SerialReg::Status),
            ..
        } => u64::from(serial.status()),
        Request::Store {
            place: Place::Serial(SerialReg::Tx),
            value,
            ..
        } => {
            serial.write((value % (1 << 8)) as u8);
            0
        }
        _ => unreachable!(),
    }
}

/// The timer's part of an event: answers what a load gives at a time, which is the number of events before this
/// one, and 0 to a store.
#[tactic(auto, unfolding(crate::specs::Cell::timer_gives, crate::specs::Cell::timer_after))]
pub fn apply_to_timer(timer: &mut Timer, request: &Request, time: u64) -> u64
    requires { FitsTimer request.now }
    ensures gives { result ≡ timer_gives request.now timer.old time }
    ensures after { timer.new ≡ timer_after request.now timer.old }
    ensures limit { timer.new < 2 ^ 64 }
{
    let _limit = timer.cmp();
    match *request {
        Request::Load {
            place: Place::Timer(reg),
            ..
        } => timer.read(reg, time),
        Request::Store {
            place: Place::Timer(_),
            value,
            ..
        } => {
            timer.write(value);
            0
        }
        _ => unreachable!(),
    }
}
