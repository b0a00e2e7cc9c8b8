ghost use Rattle.std.specs.Prelude.{◌≡◌, [], Some, map, string_bytes};
ghost use Rattle.vm_cli.specs.Answer.{fault_in};
ghost use Rattle.vm_cli.specs.Outside.{faults_of, outside};
ghost use Rattle.vm_cli.specs.Steps.{HasCause};
ghost use Rattle.vm_cli.specs.Words.{IsOnOneThread, served_line, served_of};
ghost use Rattle.vm_cli.specs.Work.{Works, steps_behind, steps_of};
ghost use Rattle.vm_cli.specs.declared.words.Caller.TheVariants.{Still as still, Threaded as threaded};
ghost use Rattle.vm_words.specs.Limits.{IsWithinLimits};

use crate::Fault;
use crate::assembly::assemble_image;
use crate::check::check_input;
use crate::join::join_image;
use crate::layer::write_layer;
use crate::lazy::restore_lazily;
use crate::orders::Orders;
use crate::peek::peek_input;
use crate::record::record_image;
use crate::replay::replay_input;
use crate::restore::restore_input;
use crate::save::save_image;
use crate::save_on_threads::save_image_on_threads;
use crate::words::{Caller, serve_line};
use crate::workload::save_workload;
use medium::{Medium, Sink, Source};
use ram_block::Gate;
use std::alloc::Global;
use std::sync::Wait;
use std::thread::Threads;
use vm_words::{Job, Mode};

/// What a line of words does on one thread, up to the line of a fault.
pub(crate) fn run_line<S: Source, M: Medium, K: Sink>(
    alloc: Global,
    words: &[String],
    image: &mut S,
    input: &mut M,
    output: &mut M,
    console: &mut K,
    orders: &mut Orders,
) -> Result<(), Fault>
    requires first { orders.old.first.members ≡ [] }
    requires second { orders.old.second.members ≡ [] }
    ensures cause { HasCause
        (faults_of (outside S.Source M.Readable K.Sink image.old input.old output.old console.old))
        (faults_of (outside S.Source M.Readable K.Sink image.new input.new output.new console.new))
        (steps_of still (map string_bytes words.now) (outside S.Source M.Readable K.Sink image.old input.old output.old console.old)) (fault_in result) }
    ensures works { Works (served_line (map string_bytes words.now))
        (outside S.Source M.Readable K.Sink image.old input.old output.old console.old)
        (outside S.Source M.Readable K.Sink image.new input.new output.new console.new)
        (record { image = image.new ≡ image.old; input = input.new ≡ input.old; output = output.new ≡ output.old; console = console.new ≡ console.old })
        (record { fault = fault_in result; first = orders.new.first.members; second = orders.new.second.members }) }
{
    let job = serve_line(alloc, Caller::Still, words)?;
    run_job(alloc, &job, image, input, output, console, orders)
}

/// The same with threads: a save that asks for them and a record run on them, and every other line on one thread. The gate
/// is told of the second phase of the save, and of the phase of the record.
pub(crate) fn run_line_on_threads<
    R: Threads + Wait + Sync,
    S: Source,
    M: Medium + Send,
    K: Sink,
    G: Gate,
>(
    rt: &R,
    alloc: Global,
    words: &[String],
    image: &mut S,
    input: &mut M,
    output: &mut M,
    console: &mut K,
    gate: &G,
    orders: &mut Orders,
) -> Result<(), Fault>
    requires first { orders.old.first.members ≡ [] }
    requires second { orders.old.second.members ≡ [] }
    ensures cause { HasCause
        (faults_of (outside S.Source M.Readable K.Sink image.old input.old output.old console.old))
        (faults_of (outside S.Source M.Readable K.Sink image.new input.new output.new console.new))
        (steps_of threaded (map string_bytes words.now) (outside S.Source M.Readable K.Sink image.old input.old output.old console.old)) (fault_in result) }
    ensures works { Works (served_line (map string_bytes words.now))
        (outside S.Source M.Readable K.Sink image.old input.old output.old console.old)
        (outside S.Source M.Readable K.Sink image.new input.new output.new console.new)
        (record { image = image.new ≡ image.old; input = input.new ≡ input.old; output = output.new ≡ output.old; console = console.new ≡ console.old })
        (record { fault = fault_in result; first = orders.new.first.members; second = orders.new.second.members }) }
{
    let job = serve_line(alloc, Caller::Threaded, words)?;
    match &job {
        Job::Save {
            shape,
            stop,
            run,
            mode,
            input: serial,
            relay,
            ..
        } => match mode {
            Mode::Threads => save_image_on_threads(
                rt, alloc, shape, serial, *stop, *run, *relay, image, output, console, gate, orders,
            ),
            Mode::Sliced => run_job(alloc, &job, image, input, output, console, orders),
        },
        Job::Record {
            shape,
            run,
            input: serial,
        } => record_image(
            rt, alloc, shape, *run, serial, image, output, console, gate, orders,
        ),
        _ => run_job(alloc, &job, image, input, output, console, orders),
    }
}

// The work of a job on one thread.
fn run_job<S: Source, M: Medium, K: Sink>(
    alloc: Global,
    job: &Job,
    image: &mut S,
    input: &mut M,
    output: &mut M,
    console: &mut K,
    orders: &mut Orders,
) -> Result<(), Fault>
    requires one_thread { IsOnOneThread job.now }
    requires limits { IsWithinLimits job.now }
    requires first { orders.old.first.members ≡ [] }
    requires second { orders.old.second.members ≡ [] }
    ensures cause { HasCause
        (faults_of (outside S.Source M.Readable K.Sink image.old input.old output.old console.old))
        (faults_of (outside S.Source M.Readable K.Sink image.new input.new output.new console.new))
        (steps_behind (Some (served_of job.now)) (outside S.Source M.Readable K.Sink image.old input.old output.old console.old)) (fault_in result) }
    ensures works { Works (Some (served_of job.now))
        (outside S.Source M.Readable K.Sink image.old input.old output.old console.old)
        (outside S.Source M.Readable K.Sink image.new input.new output.new console.new)
        (record { image = image.new ≡ image.old; input = input.new ≡ input.old; output = output.new ≡ output.old; console = console.new ≡ console.old })
        (record { fault = fault_in result; first = orders.new.first.members; second = orders.new.second.members }) }
{
    match job {
        Job::Save {
            shape,
            stop,
            run,
            turns,
            input: serial,
            ..
        } => save_image(
            alloc, shape, serial, *stop, *run, turns, image, output, console, orders,
        ),
        Job::Assemble => assemble_image(alloc, image, output, console),
        Job::CheckFile => check_input(alloc, input, console),
        Job::Restore { run, lazy: false } => {
            restore_input(alloc, *run, input, console, &mut orders.first)
        }
        Job::Restore { run, lazy: true } => {
            restore_lazily(alloc, *run, input, console, &mut orders.first)
        }
        Job::Peek { shape, at, len } => peek_input(alloc, shape, *at, *len, input, console),
        Job::Workload { seed } => save_workload(alloc, *seed, output, console, orders),
        Job::Layer { run } => write_layer(alloc, *run, input, output, console, orders),
        Job::Join => join_image(alloc, image, input, output, console),
        Job::Replay {
            shape,
            input: serial,
        } => replay_input(
            alloc,
            shape,
            serial,
            image,
            input,
            console,
            &mut orders.first,
        ),
        Job::Record { .. } => unreachable!(),
    }
}
