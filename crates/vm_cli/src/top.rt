ghost use Rattle.std.specs.Prelude.{◌≡◌, ◌≤◌, map, string_bytes};
ghost use Rattle.medium.specs.Bytes.{AddsFront, BecomesTold};
ghost use Rattle.medium.specs.Members.{sink_state};
ghost use Rattle.vm_cli.specs.Answer.{fault_in, status_of};
ghost use Rattle.vm_cli.specs.Ends.{Ends};
ghost use Rattle.vm_cli.specs.FaultLine.{fault_line};
ghost use Rattle.vm_cli.specs.Jobs.Common.{EndsLine, PrintsLine};
ghost use Rattle.vm_cli.specs.Outside.{outside};
ghost use Rattle.vm_cli.specs.declared.words.Caller.TheVariants.{Still as still, Threaded as threaded};

use crate::fault_line::fault_line;
use crate::job::{run_line, run_line_on_threads};
use crate::orders::Orders;
use crate::parts::put_parts;
use crate::{Answer, Fault};
use medium::{Medium, Sink, Source};
use ram_block::Gate;
use std::alloc::Global;
use std::sync::Wait;
use std::thread::Threads;

/// Runs the job of a line of words, on one thread: it always returns.
///
/// The image is read from `image`, a file is read from `input` and written to `output`, and texts go to
/// `console`.
pub fn rvsnap_still<S: Source, M: Medium, K: Sink>(
    alloc: Global,
    words: &[String],
    image: &mut S,
    input: &mut M,
    output: &mut M,
    console: &mut K,
) -> Answer
    ensures status { result.status ≡ status_of result.fault }
    ensures ends { Ends still (map string_bytes words.now)
        (outside S.Source M.Readable K.Sink image.old input.old output.old console.old)
        (outside S.Source M.Readable K.Sink image.new input.new output.new console.new)
        (record { image = image.new ≡ image.old; input = input.new ≡ input.old; output = output.new ≡ output.old; console = console.new ≡ console.old })
        (record { fault = result.fault; first = result.first.members; second = result.second.members }) }
{
    let mut orders = Orders::empty(alloc);
    let ended = run_line(alloc, words, image, input, output, console, &mut orders);
    answer(ended, orders, console)
}

/// Runs the job of a line of words. It may wait for the threads that it starts.
///
/// The gate is told of the second phase of a save on threads and of the phase of a record; every other line is done as by
/// `rvsnap_still`.
pub fn rvsnap<R: Threads + Wait + Sync, S: Source, M: Medium + Send, K: Sink, G: Gate>(
    rt: &R,
    alloc: Global,
    words: &[String],
    image: &mut S,
    input: &mut M,
    output: &mut M,
    console: &mut K,
    gate: &G,
) -> Answer
    ensures status { result.status ≡ status_of result.fault }
    ensures ends { Ends threaded (map string_bytes words.now)
        (outside S.Source M.Readable K.Sink image.old input.old output.old console.old)
        (outside S.Source M.Readable K.Sink image.new input.new output.new console.new)
        (record { image = image.new ≡ image.old; input = input.new ≡ input.old; output = output.new ≡ output.old; console = console.new ≡ console.old })
        (record { fault = result.fault; first = result.first.members; second = result.second.members }) }
{
    let mut orders = Orders::empty(alloc);
    let ended = run_line_on_threads(
        rt,
        alloc,
        words,
        image,
        input,
        output,
        console,
        gate,
        &mut orders,
    );
    answer(ended, orders, console)
}

// The answer to a line whose work ended so, with these orders: the line of its fault is printed.
fn answer<K: Sink>(ended: Result<(), Fault>, orders: Orders, console: &mut K) -> Answer
    ensures status { result.status ≡ status_of (fault_in ended) }
    ensures fault { result.fault ≡ fault_in ended }
    ensures first { result.first ≡ orders.first }
    ensures second { result.second ≡ orders.second }
    ensures printed { EndsLine (console.new ≡ console.old) (fault_in ended) (sink_state K.Sink console.old) (sink_state K.Sink console.new) }
{
    let Orders { first, second } = orders;
    match ended {
        Ok(()) => Answer {
            status: 0,
            fault: None,
            first,
            second,
        },
        Err(fault) => {
            print_fault(console, fault);
            Answer {
                status: fault.status(),
                fault: Some(fault),
                first,
                second,
            }
        }
    }
}

// Prints the line of a fault. A console that fails leaves the fault as it was.
fn print_fault<K: Sink>(console: &mut K, fault: Fault)
    ensures line { PrintsLine fault (sink_state K.Sink console.old) (sink_state K.Sink console.new) }
    ensures front { BecomesTold (AddsFront (fault_line fault)) (K.taken console.old) (K.taken console.new) }
    ensures count { K.faults console.old ≤ K.faults console.new }
{
    let _ = put_parts(console, &fault_line(fault));
}
