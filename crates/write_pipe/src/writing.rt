// The writer's worker.
ghost use Rattle.std.specs.Prelude.{◌≡◌, None, Some};
ghost use Rattle.medium.specs.Members.{file_state};
ghost use Rattle.flat_machine.specs.Machine.{MachineData};
ghost use Rattle.bg_saver.specs.Save.{IsOfSave, IsUnderWay};
ghost use Rattle.bg_saver.specs.declared.save_end.SaveEnd.TheVariants.{Failed};
ghost use Rattle.sliced_run.specs.Phase.{LeavesFile};
ghost use Rattle.write_pipe.specs.WriteEnd.{BringsPage, IsDrained, write_state};

use crate::{Discard, Fetch, WriteEnd};
use bg_saver::{SaveEnd, Saver, Turn};
use medium::Medium;
use page_cell::Plant;
use std::sync::Wait;
use std::thread::yield_now;

/// The writer's worker: turns of the saver over the pages that come out until the save has ended, and after a failure every
/// other page is taken out, so that no copy waits.
pub(crate) fn write_all<R: Wait, P: Plant, M: Medium>(
    rt: &R,
    writer: &mut WriteEnd<P>,
    saver: &mut Saver,
    medium: &mut M,
) -> SaveEnd
    requires runs { saver.old.end ≡ None }
    requires save { IsOfSave saver.old (write_state P.total P.writable P.stands P.fits writer.old) }
    ensures ended { saver.new.end ≡ Some result }
    ensures drained { result ≡ Failed → IsDrained P.total P.writable P.stands P.fits writer.new }
    ensures file { (i : MachineData) → IsUnderWay saver.old i (write_state P.total P.writable P.stands P.fits writer.old) (file_state M.Readable medium.old)
        → LeavesFile i (Some result) (file_state M.Readable medium.old) (file_state M.Readable medium.new) }
{
    let saved = take_turns(rt, writer, saver, medium);
    if let SaveEnd::Failed = saved {
        discard_all(rt, writer);
    }
    saved
}

// The saver's turns until the save has ended. While no page is in hand and not all have come, the next one is fetched.
fn take_turns<R: Wait, P: Plant, M: Medium>(
    rt: &R,
    writer: &mut WriteEnd<P>,
    saver: &mut Saver,
    medium: &mut M,
) -> SaveEnd
    requires runs { saver.old.end ≡ None }
    requires save { IsOfSave saver.old (write_state P.total P.writable P.stands P.fits writer.old) }
    ensures ended { saver.new.end ≡ Some result }
    ensures file { (i : MachineData) → IsUnderWay saver.old i (write_state P.total P.writable P.stands P.fits writer.old) (file_state M.Readable medium.old)
        → LeavesFile i (Some result) (file_state M.Readable medium.old) (file_state M.Readable medium.new) }
{
    for _ in rt.forever() {
        if writer.lacks_page() {
            fetch_next(rt, writer);
            continue;
        }
        match saver.turn(writer, medium) {
            Turn::Saved(_) | Turn::Skipped(_) | Turn::Again => {}
            Turn::Complete => return SaveEnd::Complete,
            Turn::Failed => return SaveEnd::Failed,
        }
    }
    unreachable!()
}

// Fetches the next page, or lets another thread run where none has come.
fn fetch_next<R: Wait, P: Plant>(rt: &R, writer: &mut WriteEnd<P>)
    requires { writer.old.hand ≡ None }
    ensures brings { BringsPage P.total P.writable P.stands P.fits writer.old writer.new }
{
    if let Fetch::Empty = writer.fetch(rt) {
        yield_now();
    }
}

// Takes out every page that hasn't come, however long it takes.
fn discard_all<R: Wait, P: Plant>(rt: &R, writer: &mut WriteEnd<P>)
    ensures { IsDrained P.total P.writable P.stands P.fits writer.new }
{
    for _ in rt.forever() {
        match writer.discard(rt) {
            Discard::Took(_) => {}
            Discard::Again => yield_now(),
            Discard::Done => return,
        }
    }
    unreachable!()
}
