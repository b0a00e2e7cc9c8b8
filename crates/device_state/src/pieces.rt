ghost use Rattle.std.specs.Prelude.{◌≡◌, ℕ, ◌+◌, ◌*◌, ◌^◌, ◌<◌, ◌≤◌, List, [], ◌∷◌, ◌++◌, length, slice_index, codes, Some, IfOk, IfErr, All, vec_len};
ghost use Rattle.medium.specs.Members.{file_state};
ghost use Rattle.medium.specs.States.{Leaves};
ghost use Rattle.mig_stream.specs.Pieces.{same_text};
ghost use Rattle.mig_stream.specs.Text.{part_text};
ghost use Rattle.device_state.specs.Reading.{bytes_in, checked, footer_in, section_in};
ghost use Rattle.device_state.specs.Reader.{AreBytes, IsFault, IsRefused, Reads};
ghost use Rattle.device_state.specs.declared.fault.DeviceReadFault.TheVariants.{Section};

use crate::DeviceReadFault;
use medium::Readable;
use mig_stream::{FOOTER, FieldReader, TextFault};
use std::alloc::Global;

/// The next piece, which is as long as the buffer.
pub(crate) fn get_piece<M: Readable>(
    reader: &mut FieldReader<'_, M>,
    buf: &mut [u8],
) -> Result<(), DeviceReadFault>
    requires { reader.old.at + length buf.old ≤ 2 ^ 40 }
    ensures answer { (file : List ℕ) → M.told reader.old.medium.now ≡ Some file → Reads (bytes_in file reader.old.at (length buf.old)) (λ _. (buf.new, reader.new.at)) result }
    ensures bytes { IfOk result (λ _. (file : List ℕ) → M.told reader.old.medium.now ≡ Some file → AreBytes file reader.old.at reader.new.at) }
    ensures fault { IfErr result (IsFault (file_state M.Readable reader.old.medium.now) (file_state M.Readable reader.new.medium.now) reader.old.at) }
    ensures at { IfOk result (λ _. reader.new.at ≡ reader.old.at + length buf.old) }
    ensures same_medium { reader.new.medium.ghost_name ≡ reader.old.medium.ghost_name }
    ensures leaves { Leaves (file_state M.Readable reader.old.medium.now) (file_state M.Readable reader.new.medium.now) }
{
    match reader.take(buf) {
        Ok(()) => Ok(()),
        Err(fault) => Err(DeviceReadFault::Field(fault)),
    }
}

/// The next piece, of so many bytes.
pub(crate) fn get_bytes<M: Readable>(
    alloc: Global,
    reader: &mut FieldReader<'_, M>,
    n: usize,
) -> Result<Vec<u8>, DeviceReadFault>
    requires { reader.old.at + n ≤ 2 ^ 40 }
    ensures answer { (file : List ℕ) → M.told reader.old.medium.now ≡ Some file → Reads (bytes_in file reader.old.at n) (λ bytes. (bytes.items, reader.new.at)) result }
    ensures bytes { IfOk result (λ _. (file : List ℕ) → M.told reader.old.medium.now ≡ Some file → AreBytes file reader.old.at reader.new.at) }
    ensures fault { IfErr result (IsFault (file_state M.Readable reader.old.medium.now) (file_state M.Readable reader.new.medium.now) reader.old.at) }
    ensures len { IfOk result (λ bytes. length bytes.items ≡ n) }
    ensures at { IfOk result (λ _. reader.new.at ≡ reader.old.at + n) }
    ensures same_medium { reader.new.medium.ghost_name ≡ reader.old.medium.ghost_name }
    ensures leaves { Leaves (file_state M.Readable reader.old.medium.now) (file_state M.Readable reader.new.medium.now) }
{
    let mut bytes = vec![in alloc; 0; n]?;
    get_piece(reader, &mut bytes)?;
    Ok(bytes)
}

/// The next piece is this text of a section's header, or the end of the stream.
pub(crate) fn expect_section<M: Readable>(
    reader: &mut FieldReader<'_, M>,
    text: &[u8],
) -> Result<(), DeviceReadFault>
    requires { reader.old.at + length text.now ≤ 2 ^ 40 }
    ensures answer { (file : List ℕ) → M.told reader.old.medium.now ≡ Some file → Reads (section_in file reader.old.at text.now) (λ _. reader.new.at) result }
    ensures bytes { IfOk result (λ _. (file : List ℕ) → M.told reader.old.medium.now ≡ Some file → AreBytes file reader.old.at reader.new.at) }
    ensures fault { IfErr result (IsFault (file_state M.Readable reader.old.medium.now) (file_state M.Readable reader.new.medium.now) reader.old.at) }
    ensures at { IfOk result (λ _. reader.new.at ≡ reader.old.at + length text.now) }
    ensures same_medium { reader.new.medium.ghost_name ≡ reader.old.medium.ghost_name }
    ensures leaves { Leaves (file_state M.Readable reader.old.medium.now) (file_state M.Readable reader.new.medium.now) }
{
    match reader.expect(text) {
        Ok(()) => Ok(()),
        Err(TextFault::Field(fault)) => Err(DeviceReadFault::Field(fault)),
        Err(TextFault::Differs { at, found }) => Err(DeviceReadFault::Section { at, found }),
    }
}

/// The next piece is the footer of the section with this id.
pub(crate) fn expect_footer<M: Readable>(
    reader: &mut FieldReader<'_, M>,
    id: u32,
) -> Result<(), DeviceReadFault>
    requires { reader.old.at ≤ 2 ^ 38 }
    ensures answer { (file : List ℕ) → M.told reader.old.medium.now ≡ Some file → Reads (footer_in file reader.old.at id) (λ _. reader.new.at) result }
    ensures bytes { IfOk result (λ _. (file : List ℕ) → M.told reader.old.medium.now ≡ Some file → AreBytes file reader.old.at reader.new.at) }
    ensures fault { IfErr result (IsFault (file_state M.Readable reader.old.medium.now) (file_state M.Readable reader.new.medium.now) reader.old.at) }
    ensures at { IfOk result (λ _. reader.new.at ≡ reader.old.at + 5) }
    ensures same_medium { reader.new.medium.ghost_name ≡ reader.old.medium.ghost_name }
    ensures leaves { Leaves (file_state M.Readable reader.old.medium.now) (file_state M.Readable reader.new.medium.now) }
{
    let text = part(FOOTER, id);
    match reader.expect(&text) {
        Ok(()) => Ok(()),
        Err(TextFault::Field(fault)) => Err(DeviceReadFault::Field(fault)),
        Err(TextFault::Differs { at, found }) => Err(DeviceReadFault::Footer { at, found }),
    }
}

/// A type byte and an id.
pub(crate) fn part(kind: u8, id: u32) -> [u8; 5]
    ensures text { result ≡ part_text kind id }
    ensures bytes { (i : ℕ) → slice_index result i < 256 }
{
    let id = id.to_be_bytes();
    [kind, id[0], id[1], id[2], id[3]]
}

/// The bytes of a piece that stands at the place go on as the text does.
pub(crate) fn compare(at: u64, found: &[u8], text: &[u8]) -> Result<(), DeviceReadFault>
    requires place { at + length text.now ≤ 2 ^ 40 }
    requires within { length text.now ≤ length found.now }
    ensures answer { (end : ℕ) → Reads (checked Section end (same_text at found.now text.now)) (λ _. end) result }
    ensures refused { IfErr result (IsRefused at) }
{
    for i in 0..text.len() {
        if found[i] != text[i] {
            return Err(DeviceReadFault::Section {
                at: at + i as u64,
                found: found[i],
            });
        }
    }
    Ok(())
}
