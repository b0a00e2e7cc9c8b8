ghost use Rattle.std.specs.Prelude.{◌≡◌, IfOk, false, replicate};
ghost use Rattle.ram_block.specs.Shape.{total_pages_of};

use flat_machine::Machine;
use page_cell::{PageBuf, Plant, Taken};
use plain_bus::PlainBus;
use ram_block::{MAX_PHASE, Shape};
use std::alloc::Global;
use std::test::Fail;

/// A test asks for a machine, a bus or a relay that can't be made.
#[derive(Debug, Drop)]
pub(crate) struct OutOfLimits;

/// auipc x5, 1 and sd x5, 0(x5): it stores into page 1.
pub(crate) const STORES: [u8; 8] = [0x97, 0x12, 0x00, 0x00, 0x23, 0xb0, 0x52, 0x00];

/// It stores into page 2, and then into page 1.
#[rattlefmt::skip]
pub(crate) const STORES_TWICE: [u8; 16] = [
    0x97, 0x22, 0x00, 0x00, // auipc x5, 2
    0x23, 0xb0, 0x52, 0x00, // sd x5, 0(x5)
    0x17, 0x13, 0x00, 0x00, // auipc x6, 1
    0x23, 0x30, 0x63, 0x00, // sd x6, 0(x6)
];

/// The guest that stores twice, with a byte in page 2.
pub(crate) fn stores_twice() -> [u8; 8193] {
    let mut image = [0; 8193];
    image[..16].copy_from_slice(&STORES_TWICE);
    image[8192] = 0xaa;
    image
}

/// A bus over a machine of one vCPU and so many pages, which boots with this image, for a phase of so many instructions. Every
/// page is protected.
pub(crate) fn protected_bus(
    alloc: Global,
    pages: u64,
    image: &[u8],
    run: u32,
) -> Result<PlainBus, Fail>
    ensures { IfOk result (λ b. b.writable ≡ replicate (total_pages_of b.machine.shape) false) }
{
    let shape = Shape::new(1, 1, pages)?;
    if image.len() as u64 > shape.ram_bytes() || run > MAX_PHASE {
        Err(OutOfLimits)?;
    }
    let machine = Machine::boot(alloc, shape, image, &[])?;
    if !machine.at_rest() {
        Err(OutOfLimits)?;
    }
    match PlainBus::start(alloc, machine, run, true) {
        Ok(bus) => Ok(bus),
        Err((_, no_memory)) => Err(no_memory)?,
    }
}

fn taken(bus: &mut PlainBus, page: u32, into: &mut PageBuf) -> Option<Taken> {
    if page >= bus.shape().total_pages() {
        return None;
    }
    Some(bus.take(page, into))
}

/// Whether each page of the bus is writable: a take finds it so.
pub(crate) fn are_writable(bus: &mut PlainBus, into: &mut PageBuf) -> bool {
    for page in 0..bus.shape().total_pages() {
        if taken(bus, page, into) != Some(Taken::Stale) {
            return false;
        }
    }
    true
}
