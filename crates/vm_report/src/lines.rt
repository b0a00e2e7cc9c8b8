ghost use Rattle.std.specs.Prelude.{◌≡◌, ◌<◌, ◌+◌, ◌≤◌, ◌++◌, length};
ghost use Rattle.vm_report.specs.Report.{clock_line, end_text, first_lines, ram_line, ram_text, save_line, timer_line};

use crate::SaveLine;
use crate::ram::count_nonzero;
use crate::text::Text;
use bg_saver::SaveEnd;
use flat_machine::Machine;

/// The line of a save, where there was one, and the line of the clock.
#[tactic(auto, unfolding(crate::specs::Report::first_lines))]
pub(crate) fn first_lines(save: Option<SaveLine>, clock: u64) -> Text
    ensures { result ≡ first_lines save clock }
{
    let mut text = Text::new();
    if let Some(save) = save {
        put_save(&mut text, save);
    }
    put_clock(&mut text, clock);
    text
}

#[tactic(auto, unfolding(crate::specs::Report::save_line))]
fn put_save(text: &mut Text, save: SaveLine)
    requires { length text.old ≤ 0 }
    ensures text { text.new ≡ save_line save }
    ensures length { length text.new ≤ 200 }
{
    text.put("save ");
    text.put(end_text(save.end));
    text.put(" blocked ");
    text.put_decimal(save.blocked);
    text.put(" faults ");
    text.put_decimal(u64::from(save.counts.faults));
    text.put(" sweep ");
    text.put_decimal(u64::from(save.counts.sweep));
    text.put("\n");
}

fn end_text(end: SaveEnd) -> &'static str
    ensures text { result.now ≡ end_text end }
    ensures short { length result.now ≤ 20 }
{
    match end {
        SaveEnd::Complete => "complete",
        SaveEnd::Failed => "failed",
    }
}

#[tactic(auto, unfolding(crate::specs::Report::clock_line))]
fn put_clock(text: &mut Text, clock: u64)
    requires { length text.old ≤ 200 }
    ensures { text.new ≡ text.old ++ clock_line clock }
{
    text.put("clock ");
    text.put_decimal(clock);
    text.put("\n");
}

/// The lines of the timer and of RAM.
#[tactic(auto, using(crate::proofs::Counts::nonzero_by_pages))]
pub(crate) fn last_lines(machine: &Machine) -> Text
    ensures { result ≡ timer_line machine.now.cmp ++ ram_line machine.now }
{
    let mut text = Text::new();
    put_timer(&mut text, machine.timer().cmp());
    put_ram(
        &mut text,
        machine.shape().total_pages(),
        count_nonzero(machine.pages()),
        machine.ram_sum(),
    );
    text
}

#[tactic(auto, unfolding(crate::specs::Report::timer_line))]
fn put_timer(text: &mut Text, cmp: u64)
    requires { length text.old ≤ 200 }
    ensures text { text.new ≡ text.old ++ timer_line cmp }
    ensures length { length text.new ≤ length text.old + 100 }
{
    text.put("timer ");
    text.put_hex(16, cmp);
    text.put("\n");
}

#[tactic(auto, unfolding(crate::specs::Report::ram_text))]
fn put_ram(text: &mut Text, pages: u32, nonzero: u32, sum: u64)
    requires { length text.old ≤ 300 }
    ensures { text.new ≡ text.old ++ ram_text pages nonzero sum }
{
    text.put("ram pages ");
    text.put_decimal(u64::from(pages));
    text.put(" nonzero ");
    text.put_decimal(u64::from(nonzero));
    text.put(" sum ");
    text.put_hex(16, sum);
    text.put("\n");
}
