ghost use Rattle.std.specs.Prelude.{◌≡◌, ◌≤◌, ◌⊎◌, ◌++◌, [], length, option_map, IfErr, IfOk, OnErr, OnOk};
ghost use Rattle.flat_machine.specs.Machine.{MachineData, Rest};
ghost use Rattle.flat_machine.specs.Run.{rounds, run};
ghost use Rattle.medium.specs.Bytes.{AddsFront, BecomesTold};
ghost use Rattle.medium.specs.Count as counts;
ghost use Rattle.medium.specs.Members.{file_state, sink_state};
ghost use Rattle.medium.specs.States.{Leaves};
ghost use Rattle.ram_block.specs.declared.limits.TheConstants.{MAX_PHASE};
ghost use Rattle.snap_layer.specs.Layer.{changed_pages};
ghost use Rattle.vm_cli.specs.Answer.{fault_in};
ghost use Rattle.vm_cli.specs.Jobs.Common.{Takes};
ghost use Rattle.vm_cli.specs.Jobs.Layer.{EndsLate, RunsCopy, RunsFrom, StopsLayer, WritesLayer, layer_line, layer_steps};
ghost use Rattle.vm_cli.specs.Outside.{end_of};
ghost use Rattle.vm_cli.specs.Steps.{Faults, HasCause};
ghost use Rattle.vm_cli.specs.Work.{IsBeforeOutput, IsNotEmpty, IsUsage, IsWorkDone};
ghost use Rattle.vm_cli.specs.Write.{IsBeforeConsole, KeepsFull};
ghost use Rattle.vm_cli.specs.declared.answer.Fault.TheVariants.{NoMemory as out_of_memory};

use crate::Fault;
use crate::orders::Orders;
use crate::parts::Part::{Number, Text};
use crate::parts::put_parts;
use crate::write::write_whole;
use flat_machine::{
    Machine, Order, an_event_keeps_what_its_laws_need, an_event_leaves_the_rest, rounds_are_a_phase,
};
use loader::load;
use medium::{Failed, Medium, Sink};
use snap_layer::{LayerRefusal, pages_in, put_layer};
use std::alloc::Global;

/// Loads the machine of the input, runs a copy of it for n instructions of each vCPU by rounds, writes what the copy then has
/// other than the machine to the output, and says on the console how many pages that is. The order of the events is left in
/// `orders`, once they are made.
#[tactic(auto, using(crate::proofs::Loads::unloaded, crate::proofs::LayerEnds::copy_cause, crate::proofs::LayerEnds::behind_phase, crate::proofs::LayerEnds::layer_short))]
pub(crate) fn write_layer<M: Medium, K: Sink>(
    alloc: Global,
    n: u32,
    input: &mut M,
    output: &mut M,
    console: &mut K,
    orders: &mut Orders,
) -> Result<(), Fault>
    requires most { n ≤ MAX_PHASE }
    requires first { orders.old.first.members ≡ [] }
    ensures cause { (old : Faults) (new : Faults)
        → HasCause (record old { input = M.faults input.old; output = M.faults output.old; console = K.faults console.old }) (record new { input = M.faults input.new; output = M.faults output.new; console = K.faults console.new })
        (layer_steps n (file_state M.Readable input.old) (file_state M.Readable output.old)) (fault_in result) }
    ensures done { IsWorkDone (fault_in result) → (base : MachineData) × (after : MachineData)
        × RunsFrom n (file_state M.Readable input.old) base orders.new.first.members after × Rest after
        × WritesLayer base after (file_state M.Readable output.old) (file_state M.Readable output.new)
        × Takes (fault_in result) (layer_line (length (changed_pages base after))) (sink_state K.Sink console.old) (sink_state K.Sink console.new) }
    ensures stopped { IsBeforeConsole (fault_in result)
        → StopsLayer n (file_state M.Readable input.old) (file_state M.Readable input.new) (output.new ≡ output.old) (file_state M.Readable output.old) (file_state M.Readable output.new) (end_of (fault_in result) orders.new) }
    ensures second { orders.new.second ≡ orders.old.second }

    ensures words_stand { IsUsage (fault_in result) → ⊥ }
    ensures leaves { Leaves (file_state M.Readable input.old) (file_state M.Readable input.new) }
    ensures untouched { IsBeforeOutput (fault_in result) → output.new ≡ output.old }
    ensures not_empty { IsNotEmpty (fault_in result) → Leaves (file_state M.Readable output.old) (file_state M.Readable output.new) }
    ensures kept { KeepsFull (file_state M.Readable output.old) (file_state M.Readable output.new) }
    ensures silent { IsBeforeConsole (fault_in result) → console.new ≡ console.old }
    ensures count { K.faults console.old ≤ K.faults console.new }
{
    let base = load(alloc, input)?;
    let machine = run_copy(alloc, &base, n, &mut orders.first)?;
    let layer = put_layer(alloc, &base, &machine)?;
    write_whole(output, &layer)?;
    put_pages(pages_in(&layer), console).map_err(|_| Fault::ConsoleFault)
}

// Prints how many pages a layer has.
fn put_pages<K: Sink>(pages: u32, console: &mut K) -> Result<(), Failed>
    ensures all { OnOk result (K.taken console.new ≡ option_map (λ before. before ++ layer_line pages) (K.taken console.old)) }
    ensures some { OnErr result (BecomesTold (AddsFront (layer_line pages)) (K.taken console.old) (K.taken console.new)) }
    ensures cause { counts.HasCause (K.faults console.old) (K.faults console.new) result }
{
    let line = [Text("layer pages "), Number(u64::from(pages)), Text("\n")];
    put_parts(console, &line)
}

// Runs a copy of the base for n instructions of each vCPU by rounds, unless it comes too late for a layer. The order of the
// events is left in `order`, once they are made.
#[tactic(auto, using(crate::proofs::LayerEnds::phase_late))]
fn run_copy(alloc: Global, base: &Machine, n: u32, order: &mut Order) -> Result<Machine, Fault>
    requires rest { Rest base.now }
    requires most { n ≤ MAX_PHASE }
    ensures ran { IfOk result (RunsCopy n base.now order.new.members) }
    ensures ended { IfErr result (λ fault. ((fault ≡ out_of_memory) × (order.new ≡ order.old)) ⊎ EndsLate n base.now order.new.members fault) }
{
    rounds_are_a_phase();
    an_event_leaves_the_rest();
    an_event_keeps_what_its_laws_need();
    let mut machine = base.copy(alloc)?;
    *order = machine.rounds(alloc, n)?;
    if !machine.at_rest() {
        let clock = machine.clock();
        return Err(Fault::LayerRefused(LayerRefusal::Late { clock }));
    }
    Ok(machine)
}
