ghost use Rattle.std.specs.Prelude.{◌≡◌, ℕ, ◌+◌, ◌*◌, ◌^◌, ◌<◌, ◌≤◌, List, [], ◌∷◌, ◌++◌, length, codes, Some, IfOk, IfErr, IfSome, All, vec_len};
ghost use Rattle.medium.specs.Members.{file_state};
ghost use Rattle.medium.specs.States.{Leaves};
ghost use Rattle.mig_stream.specs.Text.{start_text};
ghost use Rattle.device_state.specs.Reading.{TimerBody, timer_in, timer_of};
ghost use Rattle.device_state.specs.Reader.{AreBytes, IsFault, IsRefused, Reads};

use crate::format::TIMER_BYTES;
use crate::pieces::{expect_footer, expect_section, get_piece};
use crate::{DeviceFault, DeviceReadFault, FIRST_DEVICE, TIMER_VERSION};
use medium::Readable;
use mig_stream::{FULL, FieldReader, be64_at};
use ram_block::{MAX_VCPUS, MOST_AT_REST};
use serial_timer::Timer;

/// The section of the timer of a machine with so many vCPUs: the clock, and the timer.
pub(crate) fn get_timer<M: Readable>(
    reader: &mut FieldReader<'_, M>,
    vcpus: u32,
) -> Result<(u64, Timer), DeviceReadFault>
    requires place { reader.old.at ≤ 2 ^ 36 }
    requires vcpus { vcpus ≤ MAX_VCPUS }
    ensures answer { (file : List ℕ) → M.told reader.old.medium.now ≡ Some file → Reads (timer_in file reader.old.at vcpus) (λ t. (record { clock = t.0; cmp = t.1 }, reader.new.at)) result }
    ensures bytes { IfOk result (λ _. (file : List ℕ) → M.told reader.old.medium.now ≡ Some file → AreBytes file reader.old.at reader.new.at) }
    ensures fault { IfErr result (IsFault (file_state M.Readable reader.old.medium.now) (file_state M.Readable reader.new.medium.now) reader.old.at) }
    ensures clock { IfOk result (λ t. t.0 ≤ MOST_AT_REST) }
    ensures cmp { IfOk result (λ t. t.1 < 2 ^ 64) }
    ensures at { IfOk result (λ _. reader.new.at ≡ reader.old.at + 40) }
    ensures same_medium { reader.new.medium.ghost_name ≡ reader.old.medium.ghost_name }
    ensures leaves { Leaves (file_state M.Readable reader.old.medium.now) (file_state M.Readable reader.new.medium.now) }
{
    expect_section(reader, &timer_header(FIRST_DEVICE + 1 + vcpus))?;
    let at = reader.at();
    let mut body = [0; TIMER_BYTES];
    get_piece(reader, &mut body)?;
    let told = timer_at(at, &body)?;
    expect_footer(reader, FIRST_DEVICE + 1 + vcpus)?;
    Ok(told)
}

// The header of the timer's section, which has this id.
fn timer_header(id: u32) -> [u8; 19]
    ensures { result ≡ start_text FULL id (codes "timer") 0 TIMER_VERSION }
{
    let d = id.to_be_bytes();
    let v = TIMER_VERSION.to_be_bytes();
    [
        FULL, d[0], d[1], d[2], d[3], 5, b't', b'i', b'm', b'e', b'r', 0, 0, 0, 0, v[0], v[1],
        v[2], v[3],
    ]
}

// The clock and the timer that these bytes are, which stand at the place.
#[tactic(auto, unfolding(crate::specs::Reading::timer_of))]
fn timer_at(at: u64, body: &[u8; TIMER_BYTES]) -> Result<(u64, Timer), DeviceReadFault>
    ensures answer { Reads (timer_of at body.now) (λ t. record { clock = t.0; cmp = t.1 }) result }
    ensures refused { IfErr result (IsRefused at) }
    ensures clock { IfOk result (λ t. t.0 ≤ MOST_AT_REST) }
    ensures cmp { IfOk result (λ t. t.1 < 2 ^ 64) }
{
    let clock = be64_at(body, 0);
    if clock > MOST_AT_REST {
        return Err(DeviceReadFault::Device {
            at,
            fault: DeviceFault::Clock(clock),
        });
    }
    Ok((clock, Timer::of(be64_at(body, 8))))
}
