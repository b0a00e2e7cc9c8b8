ghost use Rattle.std.specs.Prelude.{◌≡◌, ◌/◌, ◌%◌, ◌^◌, ◌<◌, ◌↔◌, None, IfOk};
ghost use Rattle.ram_block.specs.AddressMap.{width_bytes, misaligned_cause, outside_cause, IsAligned, IsInRam, located, IsAccess};
ghost use Rattle.ram_block.specs.Devices.{device_at};
ghost use Rattle.ram_block.specs.declared.place.Place.TheVariants.{Ram};

use crate::{Cause, PAGE, Place, RAM_BASE, SerialReg, Shape, TimerReg, Way, Width};

// Where the devices' registers are. A load from the first is RX, and a store to it TX.
const SERIAL_DATA: u64 = 0x1000_0000;

const SERIAL_STATUS: u64 = 0x1000_0005;

const TIMER_TIME: u64 = 0x0200_0000;

const TIMER_CMP: u64 = 0x0200_0008;

const TIMER_DUE: u64 = 0x0200_0010;

impl Width {
    /// The bytes that an access moves.
    pub fn bytes(self) -> u64
        ensures { result ≡ width_bytes self }
    {
        match self {
            Width::One => 1,
            Width::Two => 2,
            Width::Four => 4,
            Width::Eight => 8,
        }
    }
}

impl Way {
    // Why an access halts at an address that isn't a multiple of its width.
    fn misaligned(self) -> Cause
        ensures { result ≡ misaligned_cause self }
    {
        match self {
            Way::Fetch => Cause::FetchMisaligned,
            Way::Load => Cause::LoadMisaligned,
            Way::Store | Way::Amo => Cause::StoreMisaligned,
        }
    }

    // Why an access halts that neither RAM nor a device has.
    fn outside(self) -> Cause
        ensures { result ≡ outside_cause self }
    {
        match self {
            Way::Fetch => Cause::FetchOutside,
            Way::Load => Cause::LoadOutside,
            Way::Store | Way::Amo => Cause::StoreOutside,
        }
    }
}

impl Shape {
    /// Where an access goes, or why it halts its vCPU. Every width and way has an answer: a fetch or an AMO
    /// has no place in a device.
    #[tactic(auto, unfolding(crate::specs::AddressMap::located))]
    pub fn locate(&self, addr: u64, width: Width, way: Way) -> Result<Place, Cause>
        ensures place { result ≡ located self.now addr width way }
        ensures misaligned { (result ≡ Err (misaligned_cause way)) ↔ ¬ IsAligned addr width }
        ensures outside { (result ≡ Err (outside_cause way))
            ↔ (IsAligned addr width × ¬ IsInRam self.now addr width × (device_at addr width way ≡ None)) }
        ensures access { IfOk result (IsAccess self.now width way) }
    {
        if addr % width.bytes() != 0 {
            return Err(way.misaligned());
        }
        if addr >= RAM_BASE && addr - RAM_BASE <= self.ram_bytes() - width.bytes() {
            return Ok(ram_place(addr - RAM_BASE));
        }
        register_at(addr, width, way).ok_or(way.outside())
    }
}

// The place of a byte of RAM, from its first one.
fn ram_place(offset: u64) -> Place
    requires { offset < 2 ^ 32 }
    ensures { result ≡ Ram (offset / PAGE) (offset % PAGE) }
{
    Place::Ram {
        page: (offset / PAGE as u64) as u32,
        off: (offset % PAGE as u64) as u32,
    }
}

// The device table.
#[tactic(auto, unfolding(crate::specs::Devices::device_at))]
fn register_at(addr: u64, width: Width, way: Way) -> Option<Place>
    ensures { result ≡ device_at addr width way }
{
    match (addr, width, way) {
        (SERIAL_DATA, Width::One, Way::Store) => Some(Place::Serial(SerialReg::Tx)),
        (SERIAL_DATA, Width::One, Way::Load) => Some(Place::Serial(SerialReg::Rx)),
        (SERIAL_STATUS, Width::One, Way::Load) => Some(Place::Serial(SerialReg::Status)),
        (TIMER_TIME, Width::Eight, Way::Load) => Some(Place::Timer(TimerReg::Time)),
        (TIMER_CMP, Width::Eight, Way::Load | Way::Store) => Some(Place::Timer(TimerReg::Cmp)),
        (TIMER_DUE, Width::Eight, Way::Load) => Some(Place::Timer(TimerReg::Due)),
        _ => None,
    }
}
