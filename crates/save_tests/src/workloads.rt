use crate::row::behind_first_line;
use std::alloc::Global;
use std::test::Fail;
use test_lines::{Fails, LINE, Line, answer};

/// How many bytes the file of the workload has, and how many an output has room for.
const FILE: usize = 4_195_565;

const ROOM: u64 = 4_200_000;

const RAN: &str = "clock 3356
cpu 0 running pc 0000000080000014 steps 600
x5 00000000801dd000
x7 ce730ad921eb10c7
x8 0000000000004000
cpu 1 running pc 0000000080000014 steps 600
x5 00000000801de000
x6 0000000000001000
x7 27243f44fd8e92c7
x8 0000000000004000
x10 0000000000000001
cpu 2 running pc 0000000080000014 steps 600
x5 00000000801df000
x6 0000000000002000
x7 8e3b719722c214c7
x8 0000000000004000
x10 0000000000000002
cpu 3 running pc 0000000080000014 steps 600
x5 00000000801e0000
x6 0000000000003000
x7 417230a8118596c7
x8 0000000000004000
x10 0000000000000003
serial 0 lost 0
timer 0000000000000000
ram pages 512 nonzero 512 sum e5c66986fa6e7baf
";

const OK: &str = "ok vcpus 4 blocks 2 pages 256\n";

/// How many bytes the file of a workload has, where it ends with this status, the orders of both phases, and its report before
/// this line.
fn workload(
    alloc: Global,
    output_fails: Fails,
    status: u8,
    line: &str,
) -> Result<Option<usize>, Fail> {
    let done = answer(
        alloc,
        &Line {
            words: &["workload", "out=a"],
            room: ROOM,
            output_fails,
            ..LINE
        },
    )?;
    let is_so = done.answer.status == status
        && behind_first_line(done.printed()).strip_suffix(line) == Some(RAN)
        && saved_pages(done.printed()) == Some(512)
        && done.answer.first.count() == 556
        && done.answer.second.count() == 2800;
    Ok(is_so.then_some(done.written().len()))
}

#[test]
fn the_workload_is_saved_reported_and_checked(rt: HostRuntime) -> Result<(), Fail> {
    let len = workload(rt.alloc(), Fails::Never, 0, OK)?;
    assert_eq!(rt; len, Some(FILE));
    Ok(())
}

#[test]
fn a_workload_reads_its_file(rt: HostRuntime) -> Result<(), Fail> {
    // A call for the length, two for the gate, one for each page, two heads, the tail, and three for the gate: the next reads.
    let len = workload(rt.alloc(), Fails::At(522), 4, "fault 4 file-fault\n")?;
    assert_eq!(rt; len, Some(FILE));
    Ok(())
}

/// How many pages a save line tells: those of faults and those of the sweep.
fn saved_pages(printed: &str) -> Option<u32> {
    let line = printed.lines().next()?;
    let (front, sweep) = line
        .strip_prefix("save complete blocked ")?
        .split_once(" sweep ")?;
    let (_, faults) = front.split_once(" faults ")?;
    let faults: u32 = faults.parse().ok()?;
    faults.checked_add(sweep.parse().ok()?)
}
