use crate::steps::{STORED, STORES, STORES_AT_BOOT, by_hand, join, make};
use snapshot_by_hand::{AT_BOOT, SMALLEST, Snapshot, file_of};
use std::alloc::{AllocError, Global};
use std::test::Fail;
use test_lines::{Fails, LINE, Line, difference};

/// Whether a line that joins a layer to a file is refused with this line. Its output has bytes, and isn't called.
fn is_refused<'a>(
    alloc: Global,
    file: &'a [u8],
    layer: &'a [u8],
    printed: &'a str,
) -> Result<bool, Fail> {
    let line = Line {
        words: &["join", "in=a", "image=b", "out=c"],
        input: file,
        image: layer,
        output: b"x",
        output_fails: Fails::From(1),
        status: 11,
        printed,
        written: b"x",
        ..LINE
    };
    Ok(difference(alloc, &line)?.is_none())
}

/// The first bytes of a layer, or all of them and zeros behind, and others over them from a place on.
fn changed(
    alloc: Global,
    layer: &[u8],
    len: usize,
    at: usize,
    bytes: &[u8],
) -> Result<Vec<u8>, AllocError> {
    let mut layer = layer.get(..len).unwrap_or(layer).to_vec(alloc)?;
    for _ in layer.len()..len {
        layer.push(0)?;
    }
    for (place, byte) in layer.iter_mut().skip(at).zip(bytes) {
        *place = *byte;
    }
    Ok(layer)
}

/// How many bytes the layer has, a place of it, other bytes for it, and the line of the refusal.
#[rattlefmt::skip]
static WRONG: [(usize, usize, &[u8], &str); 19] = [
    (0, 0, &[], "fault 11 layer truncated 0\n"),
    (4135, 0, &[], "fault 11 layer truncated 40\n"),
    (4504, 0, &[], "fault 11 layer truncated 4504\n"),
    (4505, 0, &[0x53], "fault 11 layer magic 1398164569\n"),
    (4505, 7, &[2], "fault 11 layer version 2\n"),
    (4505, 11, &[2], "fault 11 layer shape 8 2\n"),
    (4505, 15, &[1], "fault 11 layer shape 12 1\n"),
    (4505, 23, &[9], "fault 11 layer base 16 9\n"),
    (4505, 24, &[0xff; 8], "fault 11 layer base 24 18446744073709551615\n"),
    (4505, 35, &[3], "fault 11 layer count 3\n"),
    (4505, 39, &[2], "fault 11 layer page 36 2\n"),
    (4505, 4136, &[5], "fault 11 layer section 4136 5\n"),
    (4505, 4409, &[0x40, 0, 0, 0, 0, 0, 0, 1], "fault 11 layer device-steps 4409 4611686018427387905\n"),
    (4505, 4417, &[11], "fault 11 layer device-state 4417 11\n"),
    (4505, 4418, &[1], "fault 11 layer footer 4418 1\n"),
    (4505, 4451, &[0xff; 4], "fault 11 layer device-serial-length 4451 4294967295\n"),
    (4505, 4455, &[0, 0, 0x10, 1], "fault 11 layer device-input-length 4455 4097\n"),
    (4505, 4483, &[0x40, 0, 0, 0, 0, 0, 0, 1], "fault 11 layer device-clock 4483 4611686018427387905\n"),
    (4506, 0, &[], "fault 11 layer trailing 4505\n"),
];

#[test]
fn the_first_wrong_piece_of_a_layer_is_printed(rt: HostRuntime) -> Result<(), Fail> {
    let alloc = rt.alloc();
    let step = by_hand(alloc, &STORED)?;
    for (len, at, bytes, printed) in &WRONG {
        let layer = changed(alloc, &step.layer, *len, *at, bytes)?;
        assert!(rt;
            is_refused(alloc, &step.file, &layer, printed)?,
            "{printed}"
        );
    }
    Ok(())
}

/// Other machines than the layer's base, and the line of the refusal.
#[rattlefmt::skip]
static BASES: [(Snapshot, &str); 5] = [
    (SMALLEST, "fault 11 layer shape 12 2\n"),
    (Snapshot { blocks: 2, ..STORES_AT_BOOT }, "fault 11 layer shape 8 1\n"),
    (Snapshot { clock: 1, ..STORES_AT_BOOT }, "fault 11 layer base 16 0\n"),
    (Snapshot { saved: &[(0, &STORES), (1, &[1])], ..STORES_AT_BOOT }, "fault 11 layer base 24 23274612460622487\n"),
    (Snapshot { cpus: &[AT_BOOT; 2], ..STORES_AT_BOOT }, "fault 11 layer vcpus 1\n"),
];

#[test]
fn another_base_refuses_a_layer(rt: HostRuntime) -> Result<(), Fail> {
    let alloc = rt.alloc();
    let step = by_hand(alloc, &STORED)?;
    for (base, printed) in &BASES {
        let file = file_of(alloc, base)?;
        assert!(rt;
            is_refused(alloc, &file, &step.layer, printed)?,
            "{printed}"
        );
    }
    Ok(())
}

/// How many bytes the file has that is no input, and the line of the refusal.
static INPUTS: [(usize, &str); 2] = [
    (0, "fault 3 file truncated 0\n"),
    (1_057_167, "fault 3 file truncated 1057167\n"),
];

#[test]
fn a_refused_input_ends_both_lines_before_the_layer(rt: HostRuntime) -> Result<(), Fail> {
    let alloc = rt.alloc();
    let bytes = by_hand(alloc, &STORED)?;
    for (len, printed) in &INPUTS {
        for line in [make(&STORED, &bytes), join(&STORED, &bytes)] {
            let line = Line {
                image: &[],
                input: line.input.get(..*len).unwrap_or(&[1]),
                output_fails: Fails::From(1),
                status: 3,
                printed,
                first: &[],
                written: &[],
                ..line
            };
            assert!(rt; difference(alloc, &line)?.is_none(), "{printed}");
        }
    }
    Ok(())
}

#[test]
fn an_output_that_has_bytes_keeps_them(rt: HostRuntime) -> Result<(), Fail> {
    let alloc = rt.alloc();
    let bytes = by_hand(alloc, &STORED)?;
    for line in [make(&STORED, &bytes), join(&STORED, &bytes)] {
        let line = Line {
            output: b"x",
            output_fails: Fails::From(2),
            status: 8,
            printed: "fault 8 not-empty 1\n",
            written: b"x",
            ..line
        };
        assert!(rt; difference(alloc, &line)?.is_none());
    }
    Ok(())
}
