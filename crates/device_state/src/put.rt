ghost use Rattle.std.specs.Prelude.{◌≡◌, ◌<◌, ◌≤◌, ◌++◌, IfOk, OnOk};
ghost use Rattle.std.specs.List.{flat_map};
ghost use Rattle.mig_stream.specs.Text.{be64};
ghost use Rattle.flat_machine.specs.Machine.{Rest};
ghost use Rattle.device_state.specs.DeviceText.{Two, cpu_section, cpu_sections, device_text, serial_section, state_byte, timer_section};

use crate::{CPU_VERSION, FIRST_DEVICE, SERIAL_VERSION, TIMER_VERSION};
use flat_machine::Machine;
use mig_stream::{EOF, FULL, put_be32, put_be64, put_footer, put_start};
use ram_block::NoMemory;
use rv64i_step::{State, Vcpu};
use serial_timer::Serial;
use std::alloc::Global;

/// The device text of a machine at rest, with the input of its serial device and with the end of the stream.
#[tactic(auto, unfolding(crate::specs::DeviceText::device_text))]
pub fn put_devices(alloc: Global, machine: &Machine) -> Result<Vec<u8>, NoMemory>
    requires { Rest machine.now }
    ensures { IfOk result (λ text. text.items ≡ device_text Two machine.now) }
{
    let mut out = Vec::new(alloc);
    let vcpus = machine.shape().vcpus();
    put_vcpus(&mut out, machine)?;
    put_serial(&mut out, vcpus, machine.serial())?;
    put_timer(&mut out, vcpus, machine.clock(), machine.timer().cmp())?;
    out.push(EOF)?;
    Ok(out)
}

// The sections of all vCPUs.
fn put_vcpus(out: &mut Vec<u8>, machine: &Machine) -> Result<(), NoMemory>
    ensures { OnOk result (out.new.items ≡ out.old.items ++ cpu_sections 0 machine.now.vcpus) }
{
    let vcpus = machine.shape().vcpus();
    for k in 0..vcpus {
        put_vcpu(out, k, machine.vcpu(k))?;
    }
    Ok(())
}

// The section of a vCPU.
#[tactic(auto, unfolding(crate::specs::DeviceText::cpu_section))]
fn put_vcpu(out: &mut Vec<u8>, number: u32, vcpu: &Vcpu) -> Result<(), NoMemory>
    requires { number < 8 }
    ensures { OnOk result (out.new.items ≡ out.old.items ++ cpu_section number vcpu.now) }
{
    let id = FIRST_DEVICE + number;
    put_start(out, FULL, id, "cpu", number, CPU_VERSION)?;
    put_regs(out, vcpu)?;
    put_be64(out, vcpu.pc())?;
    put_be64(out, vcpu.steps())?;
    out.push(code_of_state(vcpu.state()))?;
    put_footer(out, id)?;
    Ok(())
}

// The registers from x1 on.
fn put_regs(out: &mut Vec<u8>, vcpu: &Vcpu) -> Result<(), NoMemory>
    ensures { OnOk result (out.new.items ≡ out.old.items ++ flat_map be64 vcpu.now.regs) }
{
    let _pc = vcpu.pc();
    for i in 0..31 {
        put_be64(out, vcpu.reg(i + 1))?;
    }
    Ok(())
}

// The byte of a state.
fn code_of_state(state: State) -> u8
    ensures { result ≡ state_byte state }
{
    match state {
        State::Running => 0,
        State::Halted(cause) => cause.code(),
    }
}

// The section of the serial device, with its input.
#[tactic(auto, unfolding(crate::specs::DeviceText::serial_section))]
fn put_serial(out: &mut Vec<u8>, vcpus: u32, serial: &Serial) -> Result<(), NoMemory>
    requires { vcpus ≤ 8 }
    ensures { OnOk result (out.new.items ≡ out.old.items ++ serial_section Two vcpus serial.now) }
{
    let id = FIRST_DEVICE + vcpus;
    put_start(out, FULL, id, "serial", 0, SERIAL_VERSION)?;
    put_be64(out, serial.lost())?;
    put_be32(out, serial.bytes().len() as u32)?;
    put_be32(out, serial.input().len() as u32)?;
    out.extend_from_slice(serial.bytes())?;
    out.extend_from_slice(serial.input())?;
    put_footer(out, id)?;
    Ok(())
}

// The section of the timer, with the clock.
#[tactic(auto, unfolding(crate::specs::DeviceText::timer_section))]
fn put_timer(out: &mut Vec<u8>, vcpus: u32, clock: u64, cmp: u64) -> Result<(), NoMemory>
    requires { vcpus ≤ 8 }
    ensures { OnOk result (out.new.items ≡ out.old.items ++ timer_section vcpus clock cmp) }
{
    let id = FIRST_DEVICE + 1 + vcpus;
    put_start(out, FULL, id, "timer", 0, TIMER_VERSION)?;
    put_be64(out, clock)?;
    put_be64(out, cmp)?;
    put_footer(out, id)?;
    Ok(())
}
