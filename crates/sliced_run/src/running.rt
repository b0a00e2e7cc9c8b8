ghost use Rattle.std.specs.Prelude.{◌≡◌, ◌≤◌, All, IfErr, IfOk, OnErr, true};
ghost use Rattle.ram_block.specs.declared.limits.TheConstants.{MAX_PHASE};
ghost use Rattle.medium.specs.Members.{file_state};
ghost use Rattle.flat_machine.specs.Machine.{Rest};
ghost use Rattle.vm_words.specs.Turns.{IsTurn};
ghost use Rattle.bg_saver.specs.Save.{HasJustBegun};
ghost use Rattle.sliced_run.specs.Phase.{IsPhaseOf, LeavesFile};

use crate::sliced::Sliced;
use bg_saver::{PhaseOut, SaveJob};
use flat_machine::Machine;
use medium::Medium;
use plain_bus::{Closed, PlainBus};
use ram_block::NoMemory;
use std::alloc::Global;
use vm_words::Turns;

/// Runs the second phase of a save on one thread: the turns of a line, then the saver's until the save has ended, then
/// rounds. It always returns, and takes all its memory first.
pub fn run_turns<M: Medium>(
    alloc: Global,
    machine: Machine,
    run: u32,
    turns: &Turns,
    job: SaveJob<'_, M>,
) -> Result<PhaseOut, (Machine, NoMemory)>
    requires rest { Rest machine }
    requires most { run ≤ MAX_PHASE }
    requires turns { All (IsTurn machine.shape.vcpus) turns.now }
    requires begun { HasJustBegun job.saver machine (file_state M.Readable job.medium.now) }
    ensures phase { IfOk result (λ out. IsPhaseOf machine run turns.now out) }
    ensures file { IfOk result (λ out. LeavesFile machine out.saved (file_state M.Readable job.entry.medium.now) (file_state M.Readable job.exit.1.0.now)) }
    ensures no_memory { IfErr result (λ e. e.0 ≡ machine) }
    ensures untouched { OnErr result (job.exit.1.0.now ≡ job.entry.medium.now) }
{
    let bus = PlainBus::start(alloc, machine, run, true)?;
    let SaveJob { saver, medium } = job;
    let mut phase = Sliced {
        bus,
        saver,
        saved: None,
    };
    phase.take_turns(turns, medium);
    phase.end_save(medium);
    phase.end_rounds(run);
    let Sliced { bus, saver, saved } = phase;
    let blocked = bus.blocked();
    let Closed { machine, order } = bus.close();
    Ok(PhaseOut {
        machine,
        order,
        saved,
        blocked,
        counts: saver.counts(),
    })
}
