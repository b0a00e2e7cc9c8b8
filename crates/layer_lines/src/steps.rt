use snapshot_by_hand::{AT_BOOT, Cpu, SMALLEST, Snapshot, file_of};
use std::alloc::{AllocError, Global};
use test_lines::{Fails, LINE, Line};

/// auipc x5, 1 and sd x5, 0(x5): it stores into page 1.
pub(crate) const STORES: [u8; 8] = [0x97, 0x12, 0, 0, 0x23, 0xb0, 0x52, 0];

/// auipc x5, 1 and sd x10, 0(x5): each vCPU stores its number into page 1.
const TOGETHER: [u8; 8] = [0x97, 0x12, 0, 0, 0x23, 0xb0, 0xa2, 0];

/// auipc x5, 1 and sd x0, 0(x5): it clears page 1.
const CLEARS: [u8; 8] = [0x97, 0x12, 0, 0, 0x23, 0xb0, 2, 0];

/// lui x5, 0x10000 and lbu x6, 0(x5): it reads a byte of input.
const READS: [u8; 8] = [0xb7, 2, 0, 0x10, 3, 0xc3, 2, 0];

/// A vCPU behind the store.
const STORED_ALONE: Cpu<'static> = Cpu {
    regs: &[(5, 0x8000_1000)],
    pc: 0x8000_0008,
    steps: 2,
    state: 0,
};

/// A machine before a phase and behind it, and the layer of the phase.
#[derive(Clone, Copy)]
pub(crate) struct Step {
    /// The line that makes the layer, and the members of the order.
    words: &'static [&'static str],
    order: &'static [u8],
    pub(crate) base: Snapshot<'static>,
    pub(crate) now: Snapshot<'static>,
    /// The layer: what it has from the shape to the count, the first bytes of each page, by number, and how many bytes the
    /// devices are.
    front: [u8; 28],
    pages: &'static [(u8, &'static [u8])],
    devices: usize,
    /// What the line prints, and the line that joins.
    counted: &'static str,
    shape: &'static str,
}

pub(crate) const STORES_AT_BOOT: Snapshot<'static> = Snapshot {
    pages: 2,
    saved: &[(0, &STORES)],
    ..SMALLEST
};

const STORES_AT_END: Snapshot<'static> = Snapshot {
    saved: &[(0, &STORES), (1, &[0, 0x10, 0, 0x80])],
    cpus: &[STORED_ALONE],
    clock: 3,
    ..STORES_AT_BOOT
};

/// The guest that stores, to its end.
pub(crate) const STORED: Step = Step {
    words: &["layer", "in=a", "out=b", "run=2"],
    order: &[0, 0, 0],
    base: STORES_AT_BOOT,
    now: STORES_AT_END,
    front: *b"\0\0\0\x01\0\0\0\x02\0\0\0\0\0\0\0\0\0\x52\xb0\x23\0\0\x12\x97\0\0\0\x01",
    pages: &[(1, &[0, 0x10, 0, 0x80])],
    devices: 369,
    counted: "layer pages 1\n",
    shape: "ok vcpus 1 blocks 1 pages 2\n",
};

/// The same at boot.
const NOT_RUN: Step = Step {
    words: &["layer", "in=a", "out=b"],
    order: &[],
    now: STORES_AT_BOOT,
    front: *b"\0\0\0\x01\0\0\0\x02\0\0\0\0\0\0\0\0\0\x52\xb0\x23\0\0\x12\x97\0\0\0\0",
    pages: &[],
    counted: "layer pages 0\n",
    ..STORED
};

/// A page with a byte that the guest clears.
const CLEARED: Step = Step {
    base: Snapshot {
        saved: &[(0, &CLEARS), (1, &[0xaa])],
        ..STORES_AT_BOOT
    },
    now: Snapshot {
        saved: &[(0, &CLEARS)],
        ..STORES_AT_END
    },
    front: *b"\0\0\0\x01\0\0\0\x02\0\0\0\0\0\0\0\0\0\x02\xb0\x23\0\0\x13\x41\0\0\0\x01",
    pages: &[(1, &[])],
    ..STORED
};

/// Two vCPUs that store into the page of the second block.
const OF_TWO: Step = Step {
    order: &[0, 1, 0, 1, 0, 1],
    base: Snapshot {
        blocks: 2,
        saved: &[(0, &TOGETHER)],
        cpus: &[
            AT_BOOT,
            Cpu {
                regs: &[(10, 1)],
                ..AT_BOOT
            },
        ],
        ..SMALLEST
    },
    now: Snapshot {
        blocks: 2,
        saved: &[(0, &TOGETHER), (1, &[1])],
        cpus: &[
            STORED_ALONE,
            Cpu {
                regs: &[(5, 0x8000_1000), (10, 1)],
                ..STORED_ALONE
            },
        ],
        clock: 6,
        ..SMALLEST
    },
    front: *b"\0\0\0\x02\0\0\0\x01\0\0\0\0\0\0\0\0\0\xa2\xb0\x23\0\0\x12\x97\0\0\0\x01",
    pages: &[(1, &[1])],
    devices: 656,
    shape: "ok vcpus 2 blocks 2 pages 1\n",
    ..STORED
};

/// A machine that has run, with serial bytes, whose vCPU reads the first of two bytes of input.
const READING: Snapshot<'static> = Snapshot {
    saved: &[(0, &READS)],
    cpus: &[Cpu {
        regs: &[(5, 0x1000_0000)],
        pc: 0x8000_0004,
        steps: 1,
        state: 0,
    }],
    serial: b"hi",
    input: b"Ab",
    lost: 7,
    clock: 1,
    cmp: 5,
    ..SMALLEST
};

const READ: Step = Step {
    words: &["layer", "in=a", "out=b", "run=1"],
    order: &[0, 0],
    base: READING,
    now: Snapshot {
        cpus: &[Cpu {
            regs: &[(5, 0x1000_0000), (6, 0x41)],
            pc: 0x8000_0008,
            steps: 2,
            state: 0,
        }],
        input: b"b",
        clock: 3,
        ..READING
    },
    front: *b"\0\0\0\x01\0\0\0\x01\0\0\0\0\0\0\0\x01\0\x02\xc3\x03\x10\0\x02\xb7\0\0\0\0",
    devices: 372,
    shape: "ok vcpus 1 blocks 1 pages 1\n",
    ..NOT_RUN
};

/// Each step, and how many bytes its layer and the file of the machine behind it have.
pub(crate) static STEPS: [(Step, usize, usize); 5] = [
    (NOT_RUN, 405, 1_057_168),
    (STORED, 4505, 1_057_168),
    (CLEARED, 4505, 1_057_168),
    (OF_TWO, 4792, 2_101_935),
    (READ, 408, 1_053_075),
];

/// The bytes of a step, by hand: the file of the machine before, the layer, and the file of the machine behind.
#[derive(Drop)]
pub(crate) struct ByHand {
    pub(crate) file: Vec<u8>,
    pub(crate) layer: Vec<u8>,
    pub(crate) joined: Vec<u8>,
}

pub(crate) fn by_hand(alloc: Global, step: &Step) -> Result<ByHand, AllocError> {
    let joined = file_of(alloc, &step.now)?;
    let devices_at = joined.len().saturating_sub(step.devices);
    let devices = joined.get(devices_at..).unwrap_or(&[]);
    Ok(ByHand {
        file: file_of(alloc, &step.base)?,
        layer: layer_of(alloc, step, devices)?,
        joined,
    })
}

// The layer with these devices.
fn layer_of(alloc: Global, step: &Step, devices: &[u8]) -> Result<Vec<u8>, AllocError> {
    let mut layer = b"RVLY\0\0\0\x01".to_vec(alloc)?;
    layer.extend_from_slice(&step.front)?;
    for (number, bytes) in step.pages {
        layer.extend_from_slice(&[0, 0, 0, *number])?;
        let end = layer.len().saturating_add(0x1000);
        layer.extend_from_slice(bytes)?;
        for _ in layer.len()..end {
            layer.push(0)?;
        }
    }
    layer.extend_from_slice(devices)?;
    Ok(layer)
}

/// The line that makes the layer of a step. It doesn't call its image.
pub(crate) fn make<'a>(step: &'a Step, bytes: &'a ByHand) -> Line<'a> {
    Line {
        words: step.words,
        input: &bytes.file,
        image_fails: Fails::From(1),
        printed: step.counted,
        first: step.order,
        written: &bytes.layer,
        ..LINE
    }
}

/// The line that joins base and layer to the file of the machine behind.
pub(crate) fn join<'a>(step: &'a Step, bytes: &'a ByHand) -> Line<'a> {
    Line {
        words: &["join", "in=a", "image=b", "out=c"],
        input: &bytes.file,
        image: &bytes.layer,
        printed: step.shape,
        written: &bytes.joined,
        ..LINE
    }
}
