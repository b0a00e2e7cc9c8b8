use crate::steps::{ByHand, STEPS, STORED, STORES, by_hand, join, make};
use snapshot_by_hand::{AT_BOOT, Cpu, SMALLEST, Snapshot, file_of};
use std::alloc::Global;
use std::test::Fail;
use test_lines::{Fails, LINE, Line, answer, answer_difference, difference, difference_of};

/// Whether a line ends as it has to, and leaves its input as it was.
fn ends_so(alloc: Global, line: &Line) -> Result<bool, Fail> {
    let done = answer(alloc, line)?;
    let is_input_left = done.files.input.bytes() == line.input && done.files.input.unsynced() == 0;
    Ok(is_input_left && difference_of(&done, line).is_none())
}

#[test]
fn a_layer_is_what_a_phase_changed(rt: HostRuntime) -> Result<(), Fail> {
    let alloc = rt.alloc();
    for (step, len, _) in &STEPS {
        let bytes = by_hand(alloc, step)?;
        assert_eq!(rt; bytes.layer.len(), *len);
        assert!(rt; ends_so(alloc, &make(step, &bytes))?, "{len} bytes");
    }
    Ok(())
}

#[test]
fn base_and_layer_join_to_the_file_of_the_machine(rt: HostRuntime) -> Result<(), Fail> {
    let alloc = rt.alloc();
    for (step, _, len) in &STEPS {
        let bytes = by_hand(alloc, step)?;
        assert_eq!(rt; bytes.joined.len(), *len);
        assert!(rt; ends_so(alloc, &join(step, &bytes))?, "{len} bytes");
    }
    Ok(())
}

/// Whether a save of the guest that stores has the bytes that base and layer join to.
fn is_joined_to_the_save(alloc: Global, bytes: &ByHand) -> Result<bool, Fail> {
    let save = Line {
        words: &["save", "image=a", "out=b", "pages=2", "stop=2"],
        image: &STORES,
        ..LINE
    };
    let saved = answer(alloc, &save)?;
    let line = Line {
        written: saved.written(),
        ..join(&STORED, bytes)
    };
    Ok(saved.answer.status == 0 && difference(alloc, &line)?.is_none())
}

#[test]
fn the_joined_file_is_that_of_a_save_of_the_machine(rt: HostRuntime) -> Result<(), Fail> {
    let alloc = rt.alloc();
    let bytes = by_hand(alloc, &STORED)?;
    assert_eq!(rt; bytes.joined.get(88), Some(&3));
    assert!(rt; is_joined_to_the_save(alloc, &bytes)?);
    Ok(())
}

/// A machine at addi x5, x0, 1 and ecall, a phase of it, the members of its order, the status, and what is printed.
#[rattlefmt::skip]
static LATE: [(Snapshot, &str, &[u8], u8, &str); 6] = [
    (Snapshot { clock: 1 << 62, ..SMALLEST }, "run=1", &[0], 11, "fault 11 layer late 4611686018427387905\n"),
    (Snapshot { clock: 1 << 62, ..SMALLEST }, "run=0", &[], 0, "layer pages 0\n"),
    (Snapshot { clock: (1 << 62) - 1, ..SMALLEST }, "run=2", &[0, 0], 11, "fault 11 layer late 4611686018427387905\n"),
    (Snapshot { clock: (1 << 62) - 1, ..SMALLEST }, "run=1", &[0], 0, "layer pages 0\n"),
    (Snapshot { cpus: &[Cpu { steps: 1 << 62, ..AT_BOOT }], ..SMALLEST }, "run=1", &[0], 11, "fault 11 layer late 1\n"),
    (Snapshot { clock: 1 << 62, cpus: &[Cpu { state: 10, ..AT_BOOT }], ..SMALLEST }, "run=1", &[], 0, "layer pages 0\n"),
];

/// Whether the layer of a file by these words ends so, and is written where it ends well; else its output isn't called.
fn is_layered<'a>(
    alloc: Global,
    words: &'a [&'static str],
    file: &'a [u8],
    first: &'a [u8],
    status: u8,
    printed: &'a str,
) -> Result<bool, Fail> {
    let output_fails = if status == 0 {
        Fails::Never
    } else {
        Fails::From(1)
    };
    let line = Line {
        words,
        input: file,
        output_fails,
        status,
        printed,
        first,
        ..LINE
    };
    let done = answer(alloc, &line)?;
    let is_written = !done.written().is_empty();
    Ok(is_written == (status == 0) && answer_difference(&done, &line).is_none())
}

#[test]
fn a_machine_that_came_past_the_last_rest_has_no_layer(rt: HostRuntime) -> Result<(), Fail> {
    let alloc = rt.alloc();
    for (snapshot, run, first, status, printed) in &LATE {
        let words = ["layer", "in=a", "out=b", *run];
        let file = file_of(alloc, snapshot)?;
        let ended = is_layered(alloc, &words, &file, *first, *status, *printed)?;
        assert!(rt; ended, "{printed}");
    }
    Ok(())
}
