use crate::guest::{GUEST, SERIAL_AT, guest_file, old_guest_file};
use crate::snapshots::{
    ZEROS, assert_same, assert_same_devices, booted, changed, failing, failing_from, file_by,
    file_of, guest_machine, loaded, page_of, run, snapshot_by, vcpu,
};
use flat_machine::Machine;
use loader::{LoadFault, frame, load};
use ram_block::{Cause, Shape};
use rv64i_step::State;
use std::alloc::Global;
use std::test::Fail;

#[test]
fn both_versions_of_the_file_are_loaded_to_the_machine(rt: HostRuntime) -> Result<(), Fail> {
    let alloc = rt.alloc();
    let machine = guest_machine(alloc)?;
    assert_same(&rt, &loaded(alloc, guest_file(alloc)?)?, &machine);
    assert_same(&rt, &loaded(alloc, old_guest_file(alloc)?)?, &machine);
    assert!(rt; file_of(alloc, &machine)?.as_slice() == guest_file(alloc)?.as_slice());
    Ok(())
}

/// An image whose last byte is 7, and all others 0.
fn image_with_a_last_byte(alloc: Global, len: usize) -> Result<Vec<u8>, Fail> {
    let mut image = vec![in alloc; 0u8; len]?;
    if let Some(last) = image.last_mut() {
        *last = 7;
    }
    Ok(image)
}

/// vCPUs, blocks and pages of a machine at boot, the bytes of its image, of which the last alone isn't 0, and those of
/// its file.
const SIZES: [((u64, u64, u64), usize, usize); 8] = [
    ((1, 2, 1), 1, 2_101_648),
    ((1, 2, 1), 8192, 2_101_648),
    ((1, 2, 1), 0, 2_101_648),
    ((1, 1, 64), 1, 0x14_0000 + 400),
    ((1, 1, 64), 64 * 4096, 0x14_0000 + 400),
    ((1, 1, 65), 65 * 4096, 0x14_1000 + 400),
    ((8, 2, 3), 6 * 4096, 0x20_3000 + 2409),
    ((2, 3, 2), 3 * 4096, 0x30_2000 + 687),
];

#[test]
fn the_pages_of_all_blocks_come_back(rt: HostRuntime) -> Result<(), Fail> {
    let alloc = rt.alloc();
    for &(sizes, image, len) in &SIZES {
        let image = image_with_a_last_byte(alloc, image)?;
        let machine = booted(alloc, sizes, &image, b"Ab")?;
        let file = file_of(alloc, &machine)?;
        // The input has two bytes.
        assert_eq!(rt; file.len(), len.saturating_add(2));
        assert_same(&rt, &loaded(alloc, file)?, &machine);
    }
    Ok(())
}

/// Saved pages of the largest machine: the first and the last of two blocks that stand side by side, and the last of all.
static SAVED: [(u32, &[u8]); 4] = [
    (0, &[1; 4096]),
    (2047, &[2; 4096]),
    (2048, &[3; 4096]),
    (16_383, &[4; 4096]),
];

#[test]
fn the_largest_machine_is_loaded(rt: HostRuntime) -> Result<(), Fail> {
    let alloc = rt.alloc();
    // The vCPUs and devices of a machine don't depend on its RAM.
    let mut small = booted(alloc, (8, 1, 1), &[0x73, 0, 0x10, 0], &[])?;
    run(alloc, &mut small, 1)?;
    assert_eq!(rt; small.clock(), 8);
    let shape = Shape::new(8, 8, 2048)?;
    let file = file_by(alloc, &shape, &SAVED, &small)?;
    assert_eq!(rt; file.len(), 75_499_881);
    let found = loaded(alloc, file)?;
    assert_eq!(rt; found.shape(), shape);
    assert_same_devices(&rt, &found, &small);
    assert_eq!(rt; found.pages().len(), 16_384);
    for &(p, bytes) in &SAVED {
        assert!(rt; page_of(&found, p) == Some(bytes), "page {p}");
    }
    for p in [1, 2046, 2049, 16_382] {
        assert!(rt; page_of(&found, p) == Some(ZEROS.as_slice()), "page {p}");
    }
    Ok(())
}

/// The file of a machine of two pages with the guest in the first, with these bytes from a place on.
fn two_pages_with(alloc: Global, at: usize, bytes: &[u8]) -> Result<Machine, Fail> {
    let machine = booted(alloc, (1, 1, 2), &GUEST, &[])?;
    loaded(
        alloc,
        changed(alloc, &file_of(alloc, &machine)?, at, bytes)?,
    )
}

#[test]
fn free_bytes_and_bits_change_nothing(rt: HostRuntime) -> Result<(), Fail> {
    let alloc = rt.alloc();
    let machine = booted(alloc, (1, 1, 2), &GUEST, &[])?;
    for (at, bytes) in [
        (88, [1].as_slice()),
        (88, [3].as_slice()),
        (88, [5].as_slice()),
        (88, [0xfd].as_slice()),
        (88, [1, 0xff, 0xff, 0xff, 0xff, 0xff, 0xff, 0xff].as_slice()),
        (96, [0xff].as_slice()),
        (0xf_ffff, [0xff].as_slice()),
        (0x10_1000, [0xff].as_slice()),
        (0x10_1fff, [0xff].as_slice()),
    ] {
        let found = two_pages_with(alloc, at, bytes)?;
        assert_same(&rt, &found, &machine);
    }
    Ok(())
}

#[test]
fn a_page_is_read_by_its_own_bit(rt: HostRuntime) -> Result<(), Fail> {
    let alloc = rt.alloc();
    let empty = booted(alloc, (1, 1, 2), &[], &[])?;
    assert_same(&rt, &two_pages_with(alloc, 88, &[0])?, &empty);
    assert_same(&rt, &two_pages_with(alloc, 88, &[2])?, &empty);
    let image = image_with_a_last_byte(alloc, 8192)?;
    let second = booted(alloc, (1, 1, 2), &image, &[])?;
    let file = file_of(alloc, &second)?;
    assert_eq!(rt; file.get(88), Some(&2));
    assert_same(&rt, &loaded(alloc, file)?, &second);
    Ok(())
}

#[test]
fn serial_bytes_input_and_lost_come_back(rt: HostRuntime) -> Result<(), Fail> {
    let alloc = rt.alloc();
    let devices = [
        4, 0, 0, 0, 4, 6, b's', b'e', b'r', b'i', b'a', b'l', 0, 0, 0, 0, 0, 0, 0, 2, 0, 0, 0, 0,
        0, 0, 1, 9, 0, 0, 0, 2, 0, 0, 0, 3, b'h', b'i', b'y', b'e', b's', 0x7e, 0, 0, 0, 4, 4, 0,
        0, 0, 5, 5, b't', b'i', b'm', b'e', b'r', 0, 0, 0, 0, 0, 0, 0, 1, 0, 0, 0, 0, 0, 0, 0, 5,
        0, 0, 0, 0, 0, 0, 1, 0, 0x7e, 0, 0, 0, 5, 0,
    ];
    let mut file = guest_file(alloc)?;
    file.truncate(SERIAL_AT);
    file.extend_from_slice(&devices)?;
    let found = loaded(alloc, file)?;
    assert_eq!(rt; found.serial().bytes(), b"hi".as_slice());
    assert_eq!(rt; found.serial().input(), b"yes".as_slice());
    assert_eq!(rt; found.serial().lost(), 0x109);
    assert_eq!(rt; (found.clock(), found.timer().cmp()), (5, 0x100));
    Ok(())
}

#[test]
fn each_cause_comes_back(rt: HostRuntime) -> Result<(), Fail> {
    let alloc = rt.alloc();
    let file = guest_file(alloc)?;
    for (code, state) in [
        (0, State::Running),
        (1, State::Halted(Cause::FetchMisaligned)),
        (2, State::Halted(Cause::FetchOutside)),
        (3, State::Halted(Cause::Illegal)),
        (4, State::Halted(Cause::JumpMisaligned)),
        (5, State::Halted(Cause::LoadMisaligned)),
        (6, State::Halted(Cause::LoadOutside)),
        (7, State::Halted(Cause::StoreMisaligned)),
        (8, State::Halted(Cause::StoreOutside)),
        (9, State::Halted(Cause::Ecall)),
        (10, State::Halted(Cause::Ebreak)),
    ] {
        let found = loaded(alloc, changed(alloc, &file, 1_052_984, &[code])?)?;
        assert_eq!(rt; vcpu(&found, 0).map(|vcpu| vcpu.state()), Some(state));
    }
    Ok(())
}

#[test]
fn each_call_of_the_file_may_fail(rt: HostRuntime) -> Result<(), Fail> {
    let alloc = rt.alloc();
    let bytes = guest_file(alloc)?;
    let mut calls = 0u64;
    for call in 1..100 {
        let mut file = snapshot_by(alloc, &bytes, failing(alloc, call)?)?;
        let fault = load(alloc, &mut file).err();
        assert!(rt; file.bytes() == bytes.as_slice(), "call {call}");
        assert_eq!(rt; file.unsynced(), 0);
        if fault.is_none() {
            calls = call;
            break;
        }
        assert_eq!(rt; fault, Some(LoadFault::ReadFault), "call {call}");
        // Without the failing call the same file is loaded.
        assert_eq!(rt; load(alloc, &mut file).err(), None);
    }
    // Each of the 27 pieces takes a call, and each question for the length.
    assert!(rt; calls > 28 && calls < 40, "{calls}");
    for call in [1, 12, 28] {
        let mut file = snapshot_by(alloc, &bytes, failing_from(alloc, call))?;
        assert_eq!(rt; load(alloc, &mut file).err(), Some(LoadFault::ReadFault));
        assert!(rt; file.bytes() == bytes.as_slice(), "from call {call} on");
    }
    Ok(())
}

#[test]
fn a_frame_reads_no_page(rt: HostRuntime) -> Result<(), Fail> {
    let alloc = rt.alloc();
    let image = image_with_a_last_byte(alloc, 8192)?;
    let bytes = file_of(alloc, &booted(alloc, (1, 2, 1), &image, &[])?)?;
    let mut file = snapshot_by(alloc, &bytes, failing_from(alloc, 1))?;
    assert_eq!(rt; frame(alloc, &mut file).err(), Some(LoadFault::ReadFault));
    let mut file = snapshot_by(alloc, &bytes, failing_from(alloc, 100))?;
    let found = frame(alloc, &mut file)?;
    assert_eq!(rt;
        (
            found.shape.vcpus(),
            found.shape.blocks(),
            found.shape.pages()
        ),
        (1, 2, 1)
    );
    assert_eq!(rt; (found.bits.len(), found.devices.vcpus.len()), (2, 1));
    Ok(())
}
