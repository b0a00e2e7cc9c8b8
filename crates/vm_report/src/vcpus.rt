ghost use Rattle.std.specs.Prelude.{◌≡◌, ◌<◌, ◌+◌, ◌*◌, ◌≤◌, ◌++◌, length, option_map, OnOk, OnErr};
ghost use Rattle.medium.specs.Bytes.{AddsFront, BecomesTold};
ghost use Rattle.medium.specs.Count.{HasCause};
ghost use Rattle.vm_report.specs.Report.{all_vcpu_lines, cause_text, cpu_line, register_line, register_lines, state_text, vcpu_lines};

use crate::text::Text;
use flat_machine::Machine;
use medium::{Failed, Sink};
use ram_block::Cause;
use rv64i_step::{State, Vcpu};

/// Writes the lines of all vCPUs.
pub(crate) fn put_vcpus<K: Sink>(machine: &Machine, sink: &mut K) -> Result<(), Failed>
    ensures all { OnOk result (K.taken sink.new ≡ option_map (λ before. before ++ all_vcpu_lines machine.now) (K.taken sink.old)) }
    ensures some { OnErr result (BecomesTold (AddsFront (all_vcpu_lines machine.now)) (K.taken sink.old) (K.taken sink.new)) }
    ensures cause { HasCause (K.faults sink.old) (K.faults sink.new) result }
{
    let vcpus = machine.shape().vcpus();
    for k in 0..vcpus {
        sink.write(vcpu_lines(machine, k).bytes())?;
    }
    Ok(())
}

// The lines of a vCPU of a machine.
fn vcpu_lines(machine: &Machine, k: u32) -> Text
    requires { k < machine.now.shape.vcpus }
    ensures { result ≡ vcpu_lines machine.now k }
{
    let vcpu = machine.vcpu(k);
    let mut text = cpu_line(k, vcpu);
    put_registers(&mut text, vcpu);
    text
}

#[tactic(auto, unfolding(crate::specs::Report::cpu_line))]
fn cpu_line(k: u32, vcpu: &Vcpu) -> Text
    ensures text { result ≡ cpu_line k vcpu.now }
    ensures length { length result ≤ 100 }
{
    let mut text = Text::new();
    text.put("cpu ");
    text.put_decimal(u64::from(k));
    text.put(" ");
    text.put(state_text(vcpu.state()));
    text.put(" pc ");
    text.put_hex(16, vcpu.pc());
    text.put(" steps ");
    text.put_decimal(vcpu.steps());
    text.put("\n");
    text
}

fn state_text(state: State) -> &'static str
    ensures text { result.now ≡ state_text state }
    ensures short { length result.now ≤ 20 }
{
    match state {
        State::Running => "running",
        State::Halted(cause) => cause_text(cause),
    }
}

fn cause_text(cause: Cause) -> &'static str
    ensures text { result.now ≡ cause_text cause }
    ensures short { length result.now ≤ 20 }
{
    match cause {
        Cause::FetchMisaligned => "fetch-misaligned",
        Cause::FetchOutside => "fetch-outside",
        Cause::Illegal => "illegal",
        Cause::JumpMisaligned => "jump-misaligned",
        Cause::LoadMisaligned => "load-misaligned",
        Cause::LoadOutside => "load-outside",
        Cause::StoreMisaligned => "store-misaligned",
        Cause::StoreOutside => "store-outside",
        Cause::Ecall => "ecall",
        Cause::Ebreak => "ebreak",
    }
}

// Puts a line for each register that isn't 0.
fn put_registers(text: &mut Text, vcpu: &Vcpu)
    requires { length text.old ≤ 100 }
    ensures { text.new ≡ text.old ++ register_lines vcpu.now }
{
    for i in 1..32u32 {
        put_register(text, i, vcpu.reg(i));
    }
}

#[tactic(auto, unfolding(crate::specs::Report::register_line))]
fn put_register(text: &mut Text, i: u32, value: u64)
    requires number { i < 32 }
    requires room { length text.old ≤ 1400 }
    ensures text { text.new ≡ text.old ++ register_line i value }
    ensures length { length text.new ≤ length text.old + 39 }
{
    if value != 0 {
        text.put("x");
        text.put_decimal(u64::from(i));
        text.put(" ");
        text.put_hex(16, value);
        text.put("\n");
    }
}
