ghost use Rattle.std.specs.Prelude.{◌≡◌, ◌++◌, option_map, OnOk, OnErr};
ghost use Rattle.medium.specs.Bytes.{AddsFront, BecomesTold};
ghost use Rattle.medium.specs.Count.{HasCause};
ghost use Rattle.vm_report.specs.Report.{ok_line};

use crate::text::Text;
use medium::{Failed, Sink};
use ram_block::Shape;

/// Writes the line of a file that was checked: the shape of its machine. It takes no memory.
pub fn put_ok<K: Sink>(shape: &Shape, sink: &mut K) -> Result<(), Failed>
    ensures all { OnOk result (K.taken sink.new ≡ option_map (λ before. before ++ ok_line shape.now) (K.taken sink.old)) }
    ensures some { OnErr result (BecomesTold (AddsFront (ok_line shape.now)) (K.taken sink.old) (K.taken sink.new)) }
    ensures cause { HasCause (K.faults sink.old) (K.faults sink.new) result }
{
    sink.write(ok_line(shape).bytes())
}

#[tactic(auto, unfolding(crate::specs::Report::ok_line))]
fn ok_line(shape: &Shape) -> Text
    ensures { result ≡ ok_line shape.now }
{
    let mut text = Text::new();
    text.put("ok vcpus ");
    text.put_decimal(u64::from(shape.vcpus()));
    text.put(" blocks ");
    text.put_decimal(u64::from(shape.blocks()));
    text.put(" pages ");
    text.put_decimal(u64::from(shape.pages()));
    text.put("\n");
    text
}
