// The workers of a relayed phase, beside one another.
ghost use Rattle.std.specs.Prelude.{◌≡◌, ◌<◌, ◌≤◌, All, IfOk, None, OnErr, Some, length};
ghost use Rattle.std.specs.Thread.{IsSync};
ghost use Rattle.ram_block.specs.declared.shape.TheConstants.{MAX_VCPUS};
ghost use Rattle.medium.specs.Members.{file_state};
ghost use Rattle.flat_machine.specs.Machine.{MachineData};
ghost use Rattle.page_bus.specs.Passes.{book_of};
ghost use Rattle.page_bus.specs.Plant.{IsAtStart, end_state};
ghost use Rattle.page_bus.specs.Saves.{pages_of_book};
ghost use Rattle.bg_saver.specs.Save.{HasJustBegun, IsOfSave, IsUnderWay};
ghost use Rattle.sliced_run.specs.Phase.{LeavesFile};
ghost use Rattle.bg_run.specs.Workers.{AreStepped, instant_of};
ghost use Rattle.write_pipe.specs.Relayed.{AreCounted, CopiesBus, IsOfBus, written};
ghost use Rattle.write_pipe.specs.declared.relay_pages.TheConstants.{MAX_ROOM};

use crate::copying::copy_all;
use crate::writing::write_all;
use crate::{CopyEnd, WriteEnd, relay};
use bg_run::{OwnedEnd, step_all};
use bg_saver::{Counts, SaveEnd, Saver};
use medium::Medium;
use page_bus::{Bus, VcpuPass};
use ram_block::{Gate, NoMemory};
use std::alloc::Global;
use std::sync::Wait;
use std::thread::{Threads, join_mut};

/// The workers over a bus with this many pages, of which none is writable, with a new relay between copier and writer. It
/// answers how the save ended, and what the copier counted.
pub(crate) fn run_over<R: Threads + Wait + Sync, M: Medium + Send, G: Gate>(
    rt: &R,
    alloc: Global,
    bus: &Bus,
    passes: &mut Vec<VcpuPass>,
    end: &mut OwnedEnd<'_>,
    pages: u32,
    saver: &mut Saver,
    medium: &mut M,
    room: u32,
    gate: &G,
) -> Result<(SaveEnd, Counts), NoMemory>
    requires tables { All (λ p. p.table ≡ bus.now.table) passes.old.items }
    requires count { length passes.old.items ≤ MAX_VCPUS }
    requires start { IsAtStart (instant_of end.old.pass) (end_state end.old.bus.now end.old.pass) }
    requires pages { pages ≡ pages_of_book (book_of end.old.pass.view) }
    requires begun { HasJustBegun saver.old (instant_of end.old.pass) (file_state M.Readable medium.old) }
    requires some_room { 0 < room }
    requires most_room { room ≤ MAX_ROOM }
    ensures stepped { IfOk result (λ ran. AreStepped passes.old.items passes.new.items) }
    ensures counted { IfOk result (λ ran. AreCounted end.old.bus.now end.old.pass end.new.bus.now end.new.pass ran.1) }
    ensures ended { IfOk result (λ ran. saver.new.end ≡ Some ran.0) }
    ensures file { IfOk result (λ ran. LeavesFile (instant_of end.old.pass) (Some ran.0) (file_state M.Readable medium.old) (file_state M.Readable medium.new)) }
    ensures same_passes { OnErr result (passes.new ≡ passes.old) }
    ensures same_end { OnErr result (end.new ≡ end.old) }
    ensures same_saver { OnErr result (saver.new ≡ saver.old) }
    ensures untouched { OnErr result (medium.new ≡ medium.old) }
{
    let (mut copier, mut writer) = relay(alloc, &*end, pages, room)?;
    let saved = run_beside(
        rt,
        bus,
        passes,
        end,
        &mut copier,
        &mut writer,
        saver,
        medium,
        gate,
    );
    Ok((saved, copier.counts()))
}

// The workers of all vCPUs and the copier, and beside them the writer's.
fn run_beside<'a, R: Threads + Wait + Sync, M: Medium + Send, G: Gate>(
    rt: &R,
    bus: &Bus,
    passes: &mut Vec<VcpuPass>,
    end: &mut OwnedEnd<'a>,
    copier: &mut CopyEnd<OwnedEnd<'a>>,
    writer: &mut WriteEnd<OwnedEnd<'a>>,
    saver: &mut Saver,
    medium: &mut M,
    gate: &G,
) -> SaveEnd
    requires tables { All (λ p. p.table ≡ bus.now.table) passes.old.items }
    requires count { length passes.old.items ≤ MAX_VCPUS }
    requires of_bus { IsOfBus copier.old (end_state end.old.bus.now end.old.pass) }
    requires runs { saver.old.end ≡ None }
    requires save { IsOfSave saver.old (written writer.old) }
    ensures stepped { AreStepped passes.old.items passes.new.items }
    ensures copies { CopiesBus copier.old (end_state end.old.bus.now end.old.pass) copier.new (end_state end.new.bus.now end.new.pass) }
    ensures ended { saver.new.end ≡ Some result }
    ensures file { (i : MachineData) → IsUnderWay saver.old i (written writer.old) (file_state M.Readable medium.old)
        → LeavesFile i (Some result) (file_state M.Readable medium.old) (file_state M.Readable medium.new) }
{
    let (saved, ()) = join_mut(
        rt,
        &mut || -> SaveEnd
            requires { IsSync R.row × (saver.now.end ≡ None) × IsOfSave saver.now (written writer.now) }
            ensures ended { saver.exit.now.end ≡ Some result }
            ensures file { (i : MachineData) → IsUnderWay saver.entry.now i (written writer.entry.now) (file_state M.Readable medium.entry.now)
                → LeavesFile i (Some result) (file_state M.Readable medium.entry.now) (file_state M.Readable medium.exit.now) }
        { write_all(rt, writer, saver, medium) },
        &mut ||
            requires { IsSync R.row × All (λ p. p.table ≡ bus.now.table) passes.now.items × (length passes.now.items ≤ MAX_VCPUS) × IsOfBus copier.now (end_state end.now.bus.now end.now.pass) }
            ensures stepped { AreStepped passes.entry.now.items passes.exit.now.items }
            ensures copies { CopiesBus copier.entry.now (end_state end.entry.now.bus.now end.entry.now.pass) copier.exit.now (end_state end.exit.now.bus.now end.exit.now.pass) }
        { copy_beside(rt, bus, passes, end, copier, gate) },
    );
    saved
}

// The workers of all vCPUs, and beside them the copier's.
fn copy_beside<'a, R: Threads + Wait + Sync, G: Gate>(
    rt: &R,
    bus: &Bus,
    passes: &mut Vec<VcpuPass>,
    end: &mut OwnedEnd<'a>,
    copier: &mut CopyEnd<OwnedEnd<'a>>,
    gate: &G,
)
    requires tables { All (λ p. p.table ≡ bus.now.table) passes.old.items }
    requires count { length passes.old.items ≤ MAX_VCPUS }
    requires of_bus { IsOfBus copier.old (end_state end.old.bus.now end.old.pass) }
    ensures stepped { AreStepped passes.old.items passes.new.items }
    ensures copies { CopiesBus copier.old (end_state end.old.bus.now end.old.pass) copier.new (end_state end.new.bus.now end.new.pass) }
{
    join_mut(
        rt,
        &mut ||
            requires { IsSync R.row × IsOfBus copier.now (end_state end.now.bus.now end.now.pass) }
            ensures { CopiesBus copier.entry.now (end_state end.entry.now.bus.now end.entry.now.pass) copier.exit.now (end_state end.exit.now.bus.now end.exit.now.pass) }
        { copy_all(rt, end, copier, gate) },
        &mut ||
            requires { IsSync R.row × All (λ p. p.table ≡ bus.now.table) passes.now.items × (length passes.now.items ≤ MAX_VCPUS) }
            ensures { AreStepped passes.entry.now.items passes.exit.now.items }
        { step_all(rt, bus, passes, gate) },
    );
}
