// The saver's worker.
ghost use Rattle.std.specs.Prelude.{Some};
ghost use Rattle.medium.specs.Members.{file_state};
ghost use Rattle.page_bus.specs.Plant.{end_state};
ghost use Rattle.bg_saver.specs.Save.{IsOfSave, IsUnderWay, MayRelease};
ghost use Rattle.sliced_run.specs.Phase.{LeavesFile};
ghost use Rattle.bg_run.specs.Workers.{EndsSave, EndsTurns, Releases, instant_of};

use crate::owned_end::OwnedEnd;
use bg_saver::{Released, SaveEnd, Saver, Turn};
use medium::Medium;
use ram_block::Gate;
use std::sync::Wait;
use std::thread::yield_now;

/// The saver's worker: its turns until the save has ended, and after a failure the release of every page.
pub(crate) fn save<R: Wait, M: Medium, G: Gate>(
    rt: &R,
    end: &mut OwnedEnd<'_>,
    saver: &mut Saver,
    medium: &mut M,
    gate: &G,
) -> SaveEnd
    requires save { IsOfSave saver.old (end_state end.old.bus.now end.old.pass) }
    requires way { IsUnderWay saver.old (instant_of end.old.pass) (end_state end.old.bus.now end.old.pass) (file_state M.Readable medium.old) }
    ensures ends { EndsSave end.old.bus.now end.old.pass result end.new.bus.now end.new.pass saver.new }
    ensures file { LeavesFile (instant_of end.old.pass) (Some result) (file_state M.Readable medium.old) (file_state M.Readable medium.new) }
{
    let saved = take_turns(rt, end, saver, medium, gate);
    if let SaveEnd::Failed = saved {
        release(rt, end, saver);
    }
    saved
}

// The saver's turns until the save has ended, each told to the gate by its number. One that found a lock held lets another
// thread run.
fn take_turns<R: Wait, M: Medium, G: Gate>(
    rt: &R,
    end: &mut OwnedEnd<'_>,
    saver: &mut Saver,
    medium: &mut M,
    gate: &G,
) -> SaveEnd
    requires save { IsOfSave saver.old (end_state end.old.bus.now end.old.pass) }
    requires way { IsUnderWay saver.old (instant_of end.old.pass) (end_state end.old.bus.now end.old.pass) (file_state M.Readable medium.old) }
    ensures ends { EndsTurns end.old.bus.now end.old.pass result end.new.bus.now end.new.pass saver.new }
    ensures file { LeavesFile (instant_of end.old.pass) (Some result) (file_state M.Readable medium.old) (file_state M.Readable medium.new) }
{
    let mut n = 0u32;
    for _ in rt.forever() {
        n = n.saturating_add(1);
        gate.before_turn(n);
        match saver.turn(end, medium) {
            Turn::Saved(_) | Turn::Skipped(_) => {}
            Turn::Again => yield_now(),
            Turn::Complete => return SaveEnd::Complete,
            Turn::Failed => return SaveEnd::Failed,
        }
    }
    unreachable!()
}

// Makes every page writable that is left after a failure, however often one is found held.
fn release<R: Wait>(rt: &R, end: &mut OwnedEnd<'_>, saver: &mut Saver)
    requires may { MayRelease saver.old (end_state end.old.bus.now end.old.pass) }
    requires save { IsOfSave saver.old (end_state end.old.bus.now end.old.pass) }
    ensures { Releases end.old.bus.now end.old.pass saver.old end.new.bus.now end.new.pass saver.new }
{
    for _ in rt.forever() {
        match saver.release(end) {
            Released::Done => return,
            Released::Again => yield_now(),
        }
    }
    unreachable!()
}
