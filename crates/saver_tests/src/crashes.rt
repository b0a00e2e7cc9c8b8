use crate::save::{NoMachine, booted, cut_save, failing_from};
use flat_machine::Machine;
use loader::{LoadFault, Refusal, load};
use medium::MemMedium;
use std::alloc::{AllocError, Global};
use std::test::Fail;

/// How many bytes the file of one page has, and that of two blocks of one page each.
const WHOLE: u64 = 1_053_072;

const WHOLE_OF_TWO: u64 = 2_101_648;

/// What the loader makes of the file that a crash leaves, with these of the writes that aren't synced.
fn after_crash(
    alloc: Global,
    file: &MemMedium,
    kept: &[bool],
) -> Result<Result<Machine, LoadFault>, Fail> {
    if kept.len() != file.unsynced() {
        Err(NoMachine)?;
    }
    let image = file.crash(alloc, kept)?;
    let room = image.len() as u64;
    let mut left = MemMedium::new(alloc, image, room, 0, failing_from(alloc, None))?;
    Ok(load(alloc, &mut left))
}

/// Why it is refused, if it is.
fn refusal(loaded: &Result<Machine, LoadFault>) -> Option<Refusal> {
    match loaded {
        Err(LoadFault::Refused(refusal)) => Some(*refusal),
        Ok(_) | Err(LoadFault::ReadFault | LoadFault::NoMemory) => None,
    }
}

/// Whether it is refused, or the machine with the guest at boot.
fn is_refused_or_instant(loaded: &Result<Machine, LoadFault>, instant: &Machine) -> bool {
    match loaded {
        Ok(machine) => is_same(machine, instant),
        Err(LoadFault::Refused(_)) => true,
        Err(LoadFault::ReadFault | LoadFault::NoMemory) => false,
    }
}

/// Whether a machine has the shape, the clock, the vCPUs' counters and the RAM of another.
fn is_same(machine: &Machine, other: &Machine) -> bool {
    machine.shape() == other.shape()
        && machine.clock() == other.clock()
        && machine.serial().bytes() == other.serial().bytes()
        && (0..machine.shape().ram_bytes()).all(|i| machine.byte(i) == other.byte(i))
}

/// These of so many writes: those whose bits are set, the lowest for the first.
fn kept_of(alloc: Global, writes: usize, set: u32) -> Result<Vec<bool>, AllocError> {
    let mut kept = Vec::new(alloc);
    let mut left = set;
    for _ in 0..writes {
        kept.push(left % 2 == 1)?;
        left /= 2;
    }
    Ok(kept)
}

/// How many sets of so many writes there are; of more than five, those of five.
fn sets_of(writes: usize) -> u32 {
    match writes {
        0 => 1,
        1 => 2,
        2 => 4,
        3 => 8,
        4 => 16,
        _ => 32,
    }
}

/// A call from which on each fails, and the refusals where all writes that aren't synced are kept, and where none is.
#[rattlefmt::skip]
static CUT_AT: [(u64, Option<Refusal>, Option<Refusal>); 6] = [
    (3, Some(Refusal::Truncated { at: 0 }), Some(Refusal::Truncated { at: 0 })),
    (5, Some(Refusal::Magic(0)), Some(Refusal::Truncated { at: 0 })),
    (6, Some(Refusal::Magic(0x0045_564d)), Some(Refusal::Truncated { at: 0 })),
    (7, Some(Refusal::Magic(0x0045_564d)), Some(Refusal::Truncated { at: 0 })),
    (9, None, Some(Refusal::Magic(0x0045_564d))),
    (10, None, None),
];

#[test]
fn a_file_is_refused_until_its_gate_is_open(rt: HostRuntime) -> Result<(), Fail> {
    let alloc = rt.alloc();
    for (call, all, none) in &CUT_AT {
        let (file, _out) = cut_save(alloc, 1, WHOLE, *call)?;
        let writes = file.unsynced();
        let every = kept_of(alloc, writes, u32::MAX)?;
        assert_eq!(rt; refusal(&after_crash(alloc, &file, &every)?), *all);
        let no = kept_of(alloc, writes, 0)?;
        assert_eq!(rt; refusal(&after_crash(alloc, &file, &no)?), *none);
    }
    Ok(())
}

#[test]
fn each_crash_leaves_the_instant_or_a_refused_file(rt: HostRuntime) -> Result<(), Fail> {
    let alloc = rt.alloc();
    let instant = booted(alloc, 1)?;
    for call in 1..=10 {
        let (file, _out) = cut_save(alloc, 1, WHOLE, call)?;
        let writes = file.unsynced();
        for set in 0..sets_of(writes) {
            let kept = kept_of(alloc, writes, set)?;
            let loaded = after_crash(alloc, &file, &kept)?;
            assert!(rt; is_refused_or_instant(&loaded, &instant));
        }
    }
    Ok(())
}

#[test]
fn one_write_of_two_blocks_alone_is_refused_by_its_magic(rt: HostRuntime) -> Result<(), Fail> {
    let alloc = rt.alloc();
    for call in 5..=8 {
        let (file, _out) = cut_save(alloc, 2, WHOLE_OF_TWO, call)?;
        let writes = file.unsynced();
        assert_eq!(rt; (writes as u64).saturating_add(4), call);
        for set in [1, 2, 4, 8] {
            let kept = kept_of(alloc, writes, set)?;
            if kept.contains(&true) {
                let why = refusal(&after_crash(alloc, &file, &kept)?);
                assert!(rt; matches!(why, Some(Refusal::Magic(_))));
            }
        }
    }
    Ok(())
}

#[test]
fn each_crash_of_two_blocks_leaves_the_instant_or_a_refused_file(
    rt: HostRuntime,
) -> Result<(), Fail> {
    let alloc = rt.alloc();
    let instant = booted(alloc, 2)?;
    for call in 4..=11 {
        let (file, _out) = cut_save(alloc, 2, WHOLE_OF_TWO, call)?;
        let writes = file.unsynced();
        for set in 0..sets_of(writes) {
            let kept = kept_of(alloc, writes, set)?;
            let loaded = after_crash(alloc, &file, &kept)?;
            assert!(rt; is_refused_or_instant(&loaded, &instant));
        }
    }
    Ok(())
}
