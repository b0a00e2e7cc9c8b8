ghost use Rattle.std.specs.Prelude.{◌≡◌, ◌≤◌, ◌++◌, [], ℕ, None, IfSome, OnErr, OnOk, option_map};
ghost use Rattle.medium.specs.Bytes.{AddsFront, BecomesTold};
ghost use Rattle.medium.specs.Count as counts;
ghost use Rattle.flat_machine.specs.Machine.{MachineData};
ghost use Rattle.medium.specs.Members.{file_state, sink_state};
ghost use Rattle.medium.specs.States.{Leaves};
ghost use Rattle.ram_block.specs.declared.limits.TheConstants.{MAX_PHASE};
ghost use Rattle.vm_cli.specs.Answer.{fault_in};
ghost use Rattle.vm_cli.specs.Jobs.Common.{Takes};
ghost use Rattle.vm_cli.specs.Jobs.LazyRestore.{RunsByTouch, StopsLazily, lazy_steps, touched_line};
ghost use Rattle.vm_cli.specs.Steps.{Faults, HasCause};
ghost use Rattle.vm_cli.specs.Work.{IsUsage, IsWorkDone};
ghost use Rattle.vm_cli.specs.Write.{IsBeforeConsole};
ghost use Rattle.vm_report.specs.Report.{report};

use crate::Fault;
use crate::lazy_run::{page_fault, run_lazily};
use crate::parts::{Part, put_parts};
use flat_machine::{Machine, Order};
use lazy_restore::{Held, Lazy};
use medium::{Failed, Medium, Readable, Sink};
use std::alloc::Global;
use vm_report::put_report;

/// Opens the machine of the input, runs it for n instructions of each vCPU by rounds, in which each page is read at its
/// first touch, reads the other pages, and prints how many pages were touched and the machine's report on the console. The
/// order of the events is left in `order`, once they are made.
#[tactic(auto, using(crate::proofs::Loads::unloaded, crate::proofs::LazyEnds::opened_passes, crate::proofs::LazyEnds::read_passes))]
pub(crate) fn restore_lazily<M: Medium, K: Sink>(
    alloc: Global,
    n: u32,
    input: &mut M,
    console: &mut K,
    order: &mut Order,
) -> Result<(), Fault>
    requires most { n ≤ MAX_PHASE }
    requires empty { order.old.members ≡ [] }
    ensures cause { (old : Faults) (new : Faults)
        → HasCause (record old { input = M.faults input.old; console = K.faults console.old }) (record new { input = M.faults input.new; console = K.faults console.new })
        (lazy_steps (file_state M.Readable input.old)) (fault_in result) }
    ensures done { IsWorkDone (fault_in result) → (pages : ℕ) × (after : MachineData)
        × IfSome (M.told input.old) (λ file. RunsByTouch n file order.new.members pages after)
        × Takes (fault_in result) (touched_line pages ++ report None after) (sink_state K.Sink console.old) (sink_state K.Sink console.new) }
    ensures stopped { (IsWorkDone (fault_in result) → ⊥) → StopsLazily n (file_state M.Readable input.old) (fault_in result) order.new.members }

    ensures words_stand { IsUsage (fault_in result) → ⊥ }
    ensures leaves { Leaves (file_state M.Readable input.old) (file_state M.Readable input.new) }
    ensures silent { IsBeforeConsole (fault_in result) → console.new ≡ console.old }
    ensures count { K.faults console.old ≤ K.faults console.new }
{
    let held = Held::open(alloc, input)?;
    let mut lazy = Lazy {
        held,
        medium: input,
    };
    *order = match run_lazily(alloc, &mut lazy, n) {
        Ok(order) => order,
        Err(fault) => {
            let Lazy {
                held: _held,
                medium: _medium,
            } = lazy;
            return Err(fault);
        }
    };
    let pages = lazy.touched();
    match lazy.finish() {
        Ok(machine) => put_touched(pages, &machine, console).map_err(|_| Fault::ConsoleFault),
        Err(fault) => Err(page_fault(fault)),
    }
}

// Prints how many pages were touched, and the machine's report.
fn put_touched<K: Sink>(pages: u32, machine: &Machine, console: &mut K) -> Result<(), Failed>
    ensures all { OnOk result (K.taken console.new ≡ option_map (λ before. before ++ (touched_line pages ++ report None machine.now)) (K.taken console.old)) }
    ensures some { OnErr result (BecomesTold (AddsFront (touched_line pages ++ report None machine.now)) (K.taken console.old) (K.taken console.new)) }
    ensures cause { counts.HasCause (K.faults console.old) (K.faults console.new) result }
{
    let line = [
        Part::Text("touched "),
        Part::Number(u64::from(pages)),
        Part::Text("\n"),
    ];
    put_parts(console, &line)?;
    put_report(None, machine, console)
}
