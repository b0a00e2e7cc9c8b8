ghost use Rattle.std.specs.Prelude.{◌≡◌, ◌+◌, ◌*◌, ◌/◌, ◌≤◌, ◌++◌, length, option_map, OnOk, OnErr};
ghost use Rattle.medium.specs.Bytes.{AddsFront, BecomesTold};
ghost use Rattle.medium.specs.Count.{HasCause};
ghost use Rattle.vm_report.specs.Report.{row_line, row_lines, row_of, serial_line, serial_lines};

use crate::text::Text;
use medium::{Failed, Sink};
use serial_timer::Serial;

// How many bytes stand in a line.
const ROW: usize = 32;

/// Writes the lines of the serial device.
pub(crate) fn put_serial<K: Sink>(serial: &Serial, sink: &mut K) -> Result<(), Failed>
    ensures all { OnOk result (K.taken sink.new ≡ option_map (λ before. before ++ serial_lines serial.now) (K.taken sink.old)) }
    ensures some { OnErr result (BecomesTold (AddsFront (serial_lines serial.now)) (K.taken sink.old) (K.taken sink.new)) }
    ensures cause { HasCause (K.faults sink.old) (K.faults sink.new) result }
{
    sink.write(serial_line(serial).bytes())?;
    put_rows(serial.bytes(), sink)
}

#[tactic(auto, unfolding(crate::specs::Report::serial_line))]
fn serial_line(serial: &Serial) -> Text
    ensures { result ≡ serial_line serial.now }
{
    let mut text = Text::new();
    text.put("serial ");
    text.put_decimal(serial.bytes().len() as u64);
    text.put(" lost ");
    text.put_decimal(serial.lost());
    text.put("\n");
    text
}

/// Writes bytes in hexadecimal digits, in rows of 32 bytes, of which the last may be shorter. It takes no memory. After
/// Failed a front of the rows was taken, where the sink tells that.
pub fn put_rows<K: Sink>(bytes: &[u8], sink: &mut K) -> Result<(), Failed>
    ensures all { OnOk result (K.taken sink.new ≡ option_map (λ before. before ++ row_lines bytes.now) (K.taken sink.old)) }
    ensures some { OnErr result (BecomesTold (AddsFront (row_lines bytes.now)) (K.taken sink.old) (K.taken sink.new)) }
    ensures cause { HasCause (K.faults sink.old) (K.faults sink.new) result }
{
    let rows = bytes.len().div_ceil(ROW);
    for i in 0..rows {
        sink.write(row_line(row(bytes, i)).bytes())?;
    }
    Ok(())
}

// A row of the bytes.
#[tactic(auto, using(crate::proofs::Rows::row_cut))]
fn row(bytes: &[u8], i: usize) -> &[u8]
    requires { 32 * i ≤ length bytes.now }
    ensures row { result.now ≡ row_of bytes.now i }
    ensures length { length result.now ≤ 32 }
{
    let rest = &bytes[ROW * i..];
    &rest[..rest.len().min(ROW)]
}

#[tactic(auto, unfolding(crate::specs::Report::row_line))]
fn row_line(row: &[u8]) -> Text
    requires { length row.now ≤ 32 }
    ensures { result ≡ row_line row.now }
{
    let mut text = Text::new();
    for byte in row {
        text.put_hex(2, u64::from(*byte));
    }
    text.put("\n");
    text
}
