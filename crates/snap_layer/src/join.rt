ghost use Rattle.std.specs.Prelude.{◌≡◌, IfOk, vec_len};
ghost use Rattle.ram_block.specs.Shape.{total_pages_of};
ghost use Rattle.flat_machine.specs.Machine.{IsMachine, Rest};
ghost use Rattle.flat_machine.specs.Page.{joined};
ghost use Rattle.device_state.specs.DeviceText.{AreDevices};
ghost use Rattle.device_state.specs.Reader.{told_of};
ghost use Rattle.snap_layer.specs.Layer.{Joined};
ghost use Rattle.snap_layer.specs.Reading.{Answers, joined_in, machine_with};

use crate::LayerFault;
use crate::format::{ENTRY_LEN, FRONT_LEN};
use crate::front::read_front;
use crate::last::read_last;
use crate::pages::read_pages;
use device_state::Devices;
use flat_machine::{Machine, Parts};
use ram_block::{PageBuf, Shape};
use std::alloc::Global;

/// The machine to which base and layer join, or the first piece of the layer that is wrong. The base's pages are changed
/// in place; after a fault base and layer are gone. Bases of the same shape, clock and sum of RAM aren't told apart.
#[tactic(auto, unfolding(crate::specs::Reading::joined_in))]
pub fn join_layer(alloc: Global, base: Machine, layer: Vec<u8>) -> Result<Machine, LayerFault>
    ensures answer { Answers (joined_in base layer.items) result }
    ensures joined { IfOk result (Joined base layer.items) }
{
    let count = read_front(&layer, &base)?;
    let Parts { shape, mut ram, .. } = base.into_parts();
    read_pages(&layer, count, &mut ram)?;
    let at = FRONT_LEN + ENTRY_LEN * count as usize;
    let devices = read_last(alloc, layer, at as u64, shape.vcpus())?;
    Ok(put_together(shape, ram, devices))
}

// The machine of this shape, with these pages and devices.
fn put_together(shape: Shape, ram: Vec<PageBuf>, devices: Devices) -> Machine
    requires pages { vec_len ram ≡ total_pages_of shape }
    requires vcpus { vec_len devices.vcpus ≡ shape.vcpus }
    requires limits { AreDevices (told_of devices) }
    ensures machine { result ≡ machine_with shape (joined ram.items) (told_of devices) }
    ensures rest { Rest result }
    ensures limits { IsMachine result }
{
    let Devices {
        vcpus,
        serial,
        timer,
        clock,
    } = devices;
    Machine::of(shape, ram, vcpus, serial, timer, clock)
}
