ghost use Rattle.std.specs.Prelude.{IfOk};
ghost use Rattle.flat_machine.specs.Machine.{Rest};

use super::*;
use device_state::put_devices;
use flat_machine::Machine;
use ram_block::Shape;
use std::alloc::Global;
use std::test::Fail;

// A test asks for what a machine doesn't have.
#[derive(Debug, Drop)]
struct OutOfLimits;

// addi x5, x0, 7
const SETS_X5: [u8; 4] = [0x93, 0x02, 0x70, 0x00];

// A machine of one vCPU and one page, with one byte of input.
fn booted(alloc: Global) -> Result<Machine, Fail>
    ensures { IfOk result Rest }
{
    Ok(Machine::boot(alloc, Shape::new(1, 1, 1)?, &SETS_X5, &[7])?)
}

// The machine stopped.
fn stopped(alloc: Global, machine: Machine) -> Result<Stopped, Fail> {
    if !machine.at_rest() {
        Err(OutOfLimits)?;
    }
    match stop(alloc, machine) {
        Ok(stopped) => Ok(stopped),
        Err((_, no_memory)) => Err(no_memory)?,
    }
}

#[test]
fn a_booted_machine_stops_with_its_device_text(rt: HostRuntime) -> Result<(), Fail> {
    let alloc = rt.alloc();
    let stopped = stopped(alloc, booted(alloc)?)?;
    let text = put_devices(alloc, stopped.machine())?;
    assert_eq!(rt; stopped.devices().len(), 370);
    assert_eq!(rt; stopped.devices(), text.as_slice());
    let machine = stopped.into_machine();
    assert_eq!(rt; (machine.clock(), machine.vcpu(0).pc()), (0, 0x8000_0000));
    assert_eq!(rt; machine.serial().input(), [7].as_slice());
    Ok(())
}

#[test]
fn a_phase_shows_in_the_device_text(rt: HostRuntime) -> Result<(), Fail> {
    let alloc = rt.alloc();
    let mut machine = booted(alloc)?;
    machine.rounds(alloc, 1)?;
    let stopped = stopped(alloc, machine)?;
    let text = stopped.devices();
    assert_eq!(rt; text.len(), 370);
    // x5, the pc and the count of steps, the clock
    assert_eq!(rt; &text[49..57], [0, 0, 0, 0, 0, 0, 0, 7].as_slice());
    assert_eq!(rt;
        &text[265..282],
        [0, 0, 0, 0, 0x80, 0, 0, 4, 0, 0, 0, 0, 0, 0, 0, 1, 0].as_slice()
    );
    assert_eq!(rt; &text[348..356], [0, 0, 0, 0, 0, 0, 0, 1].as_slice());
    let machine = stopped.into_machine();
    assert_eq!(rt; (machine.clock(), machine.vcpu(0).reg(5)), (1, 7));
    Ok(())
}
