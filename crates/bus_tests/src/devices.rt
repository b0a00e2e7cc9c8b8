ghost use Rattle.page_bus.specs.Closing.{AreAllOf};

use crate::compare::{is_same, replayed};
use crate::guests::PRINTS;
use crate::shared::{Shared, booted, started};
use plain_bus::{Closed, StepAnswer};
use std::test::Fail;

/// The vCPUs that make the events: vCPU 1 prints and reads the time before vCPU 0, which sets the compare value last, to the
/// 13 events that came before its own reading.
static TURNS: [usize; 18] = [0, 0, 0, 1, 1, 1, 1, 0, 1, 1, 1, 0, 0, 0, 1, 1, 0, 0];

/// How many of the turns, from the first on, make an event.
fn events(shared: &mut Shared, turns: &[usize]) -> usize
    requires { AreAllOf shared.old.bus shared.old.passes.items shared.old.saver }
    ensures { AreAllOf shared.new.bus shared.new.passes.items shared.new.saver }
{
    for (i, k) in turns.iter().enumerate() {
        if shared.step(*k) != Some(StepAnswer::Done) {
            return i;
        }
    }
    turns.len()
}

/// Whether the bus has run so, and the devices are left as the turns say.
fn is_left_so(shared: Shared) -> bool
    requires { AreAllOf shared.bus shared.passes.items shared.saver }
{
    let Shared {
        bus,
        passes,
        saver,
        mut start,
    } = shared;
    let Closed { machine, order } = bus.close(passes, saver);
    machine.serial().bytes() == b"BA".as_slice()
        && machine.timer().cmp() == 13
        && replayed(&mut start, &order)
        && is_same(&start, &machine)
}

#[test]
fn two_vcpus_use_both_devices_in_the_order_of_their_events(rt: HostRuntime) -> Result<(), Fail> {
    let alloc = rt.alloc();
    let mut shared = started(alloc, booted(alloc, 2, 1, &PRINTS)?, 6, true)?;
    let made = events(&mut shared, &TURNS);
    assert!(rt; made == TURNS.len() && is_left_so(shared));
    Ok(())
}
