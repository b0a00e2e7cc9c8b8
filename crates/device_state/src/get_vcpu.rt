ghost use Rattle.std.specs.Prelude.{◌≡◌, ℕ, ◌+◌, ◌*◌, ◌^◌, ◌<◌, ◌≤◌, List, [], ◌∷◌, ◌++◌, length, codes, Some, IfOk, IfErr, All, vec_len};
ghost use Rattle.medium.specs.Members.{file_state};
ghost use Rattle.medium.specs.States.{Leaves};
ghost use Rattle.rv64i_step.specs.Vcpu.{VcpuData};
ghost use Rattle.mig_stream.specs.Text.{be32};
ghost use Rattle.device_state.specs.DeviceText.{IsResting};
ghost use Rattle.device_state.specs.Reading.{kind_of, numbers_of, start_in, state_of, vcpu_in, vcpu_of, vcpus_in};
ghost use Rattle.device_state.specs.Reader.{AreBytes, IsFault, IsRefused, Reads};

use crate::format::{PC_AT, START_BYTES, STATE_AT, STEPS_AT, VCPU_BYTES};
use crate::kind::DeviceKind;
use crate::pieces::{compare, expect_footer, expect_section, get_piece, part};
use crate::{CPU_VERSION, DeviceFault, DeviceReadFault, FIRST_DEVICE};
use medium::Readable;
use mig_stream::{FULL, FieldReader, be64_at};
use ram_block::{Cause, MAX_VCPUS, MOST_AT_REST};
use rv64i_step::{State, Vcpu};
use std::alloc::Global;

/// The sections of all vCPUs, and the start of the serial device's behind them.
pub(crate) fn get_vcpus<M: Readable>(
    alloc: Global,
    reader: &mut FieldReader<'_, M>,
) -> Result<Vec<Vcpu>, DeviceReadFault>
    requires { reader.old.at ≤ 2 ^ 32 }
    ensures answer { (file : List ℕ) → M.told reader.old.medium.now ≡ Some file → Reads (vcpus_in file MAX_VCPUS reader.old.at 0) (λ vcpus. (vcpus.items, reader.new.at)) result }
    ensures bytes { IfOk result (λ _. (file : List ℕ) → M.told reader.old.medium.now ≡ Some file → AreBytes file reader.old.at reader.new.at) }
    ensures fault { IfErr result (IsFault (file_state M.Readable reader.old.medium.now) (file_state M.Readable reader.new.medium.now) reader.old.at) }
    ensures some { IfOk result (λ vcpus. 1 ≤ length vcpus.items) }
    ensures count { IfOk result (λ vcpus. length vcpus.items ≤ MAX_VCPUS) }
    ensures each { IfOk result (λ vcpus. All IsResting vcpus.items) }
    ensures behind { IfOk result (λ _. reader.old.at ≤ reader.new.at) }
    ensures near { IfOk result (λ _. reader.new.at ≤ 2 ^ 32 + 2 ^ 16) }
    ensures same_medium { reader.new.medium.ghost_name ≡ reader.old.medium.ghost_name }
    ensures leaves { Leaves (file_state M.Readable reader.old.medium.now) (file_state M.Readable reader.new.medium.now) }
{
    let mut vcpus = Vec::with_capacity(alloc, MAX_VCPUS as usize)?;
    'sections: loop {
        let count = vcpus.len() as u32;
        match get_start(reader, count)? {
            DeviceKind::Serial => return Ok(vcpus),
            DeviceKind::Cpu => vcpus.push(get_vcpu(reader, count)?)?,
        }
    }
}

// The start of the section behind those of so many vCPUs.
fn get_start<M: Readable>(
    reader: &mut FieldReader<'_, M>,
    vcpus: u32,
) -> Result<DeviceKind, DeviceReadFault>
    requires place { reader.old.at ≤ 2 ^ 36 }
    requires vcpus { vcpus ≤ MAX_VCPUS }
    ensures answer { (file : List ℕ) → M.told reader.old.medium.now ≡ Some file → Reads (start_in file reader.old.at vcpus) (λ kind. (kind, reader.new.at)) result }
    ensures bytes { IfOk result (λ _. (file : List ℕ) → M.told reader.old.medium.now ≡ Some file → AreBytes file reader.old.at reader.new.at) }
    ensures fault { IfErr result (IsFault (file_state M.Readable reader.old.medium.now) (file_state M.Readable reader.new.medium.now) reader.old.at) }
    ensures more { result ≡ Ok DeviceKind.Cpu → vcpus < MAX_VCPUS }
    ensures some { result ≡ Ok DeviceKind.Serial → 0 < vcpus }
    ensures at { IfOk result (λ _. reader.new.at ≡ reader.old.at + START_BYTES) }
    ensures same_medium { reader.new.medium.ghost_name ≡ reader.old.medium.ghost_name }
    ensures leaves { Leaves (file_state M.Readable reader.old.medium.now) (file_state M.Readable reader.new.medium.now) }
{
    let at = reader.at();
    let mut start = [0; START_BYTES];
    get_piece(reader, &mut start)?;
    compare(at, &start, &part(FULL, FIRST_DEVICE + vcpus))?;
    kind_at(vcpus, at + 5, start[5])
}

// Which section begins behind those of so many vCPUs, by the length of its name.
#[tactic(auto, unfolding(crate::specs::Reading::kind_of))]
fn kind_at(vcpus: u32, at: u64, byte: u8) -> Result<DeviceKind, DeviceReadFault>
    ensures answer { Reads (kind_of vcpus at byte) (λ kind. kind) result }
    ensures refused { IfErr result (IsRefused at) }
    ensures more { result ≡ Ok DeviceKind.Cpu → vcpus < MAX_VCPUS }
    ensures some { result ≡ Ok DeviceKind.Serial → 0 < vcpus }
{
    if vcpus < MAX_VCPUS && usize::from(byte) == "cpu".len() {
        Ok(DeviceKind::Cpu)
    } else if 0 < vcpus && usize::from(byte) == "serial".len() {
        Ok(DeviceKind::Serial)
    } else {
        Err(DeviceReadFault::Section { at, found: byte })
    }
}

// The section of a vCPU behind its start.
fn get_vcpu<M: Readable>(
    reader: &mut FieldReader<'_, M>,
    number: u32,
) -> Result<Vcpu, DeviceReadFault>
    requires place { reader.old.at ≤ 2 ^ 36 }
    requires number { number < MAX_VCPUS }
    ensures answer { (file : List ℕ) → M.told reader.old.medium.now ≡ Some file → Reads (vcpu_in file reader.old.at number) (λ vcpu. (vcpu, reader.new.at)) result }
    ensures bytes { IfOk result (λ _. (file : List ℕ) → M.told reader.old.medium.now ≡ Some file → AreBytes file reader.old.at reader.new.at) }
    ensures fault { IfErr result (IsFault (file_state M.Readable reader.old.medium.now) (file_state M.Readable reader.new.medium.now) reader.old.at) }
    ensures limits { IfOk result IsResting }
    ensures at { IfOk result (λ _. reader.new.at ≡ reader.old.at + 281) }
    ensures same_medium { reader.new.medium.ghost_name ≡ reader.old.medium.ghost_name }
    ensures leaves { Leaves (file_state M.Readable reader.old.medium.now) (file_state M.Readable reader.new.medium.now) }
{
    expect_section(reader, &cpu_header(number))?;
    let at = reader.at();
    let mut body = [0; VCPU_BYTES];
    get_piece(reader, &mut body)?;
    let vcpu = vcpu_at(at, &body)?;
    expect_footer(reader, FIRST_DEVICE + number)?;
    Ok(vcpu)
}

// The header of a vCPU's section from its name on.
fn cpu_header(number: u32) -> [u8; 11]
    ensures { result ≡ codes "cpu" ++ (be32 number ++ be32 CPU_VERSION) }
{
    let n = number.to_be_bytes();
    let v = CPU_VERSION.to_be_bytes();
    [
        b'c', b'p', b'u', n[0], n[1], n[2], n[3], v[0], v[1], v[2], v[3],
    ]
}

// The vCPU that these bytes are, which stand at the place.
#[tactic(auto, unfolding(crate::specs::Reading::vcpu_of))]
fn vcpu_at(at: u64, body: &[u8; VCPU_BYTES]) -> Result<Vcpu, DeviceReadFault>
    requires { at ≤ 2 ^ 40 }
    ensures answer { Reads (vcpu_of at body.now) (λ vcpu. vcpu) result }
    ensures refused { IfErr result (IsRefused at) }
    ensures limits { IfOk result IsResting }
{
    let steps = be64_at(body, STEPS_AT);
    if steps > MOST_AT_REST {
        return Err(DeviceReadFault::Device {
            at: at + STEPS_AT as u64,
            fault: DeviceFault::Steps(steps),
        });
    }
    let state = state_at(at + STATE_AT as u64, body[STATE_AT])?;
    Ok(Vcpu::of(registers(body), be64_at(body, PC_AT), steps, state))
}

// The registers, with which these bytes begin.
fn registers(body: &[u8; VCPU_BYTES]) -> [u64; 31]
    ensures { result ≡ numbers_of 31 body.now }
{
    let mut regs = [0; 31];
    for i in 0..31 {
        regs[i] = be64_at(body, 8 * i);
    }
    regs
}

// What a state's byte says.
#[tactic(auto, unfolding(crate::specs::Reading::state_of))]
fn state_at(at: u64, byte: u8) -> Result<State, DeviceReadFault>
    ensures answer { Reads (state_of at byte) (λ state. state) result }
    ensures refused { IfErr result (IsRefused at) }
{
    if byte == 0 {
        return Ok(State::Running);
    }
    match Cause::of_code(byte) {
        Some(cause) => Ok(State::Halted(cause)),
        None => Err(DeviceReadFault::Device {
            at,
            fault: DeviceFault::State(byte),
        }),
    }
}
