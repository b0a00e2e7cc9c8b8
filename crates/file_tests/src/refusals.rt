use crate::guest::{GUEST, guest_file, old_guest_file};
use crate::snapshots::{booted, changed, faults_of, file_of, front};
use device_state::DeviceFault;
use loader::{LoadFault, Refusal};
use mapped_ram_header::HeaderFault;
use std::test::Fail;

/// Where the pieces of the guest's file begin, with the serial section of version 1, and where the file ends.
const STARTS: [usize; 29] = [
    0, 4, 8, 22, 35, 39, 47, 52, 60, 88, 1_048_576, 1_052_672, 1_052_680, 1_052_685, 1_052_690,
    1_052_698, 1_052_703, 1_052_709, 1_052_720, 1_052_985, 1_052_990, 1_052_996, 1_053_010,
    1_053_022, 1_053_027, 1_053_046, 1_053_062, 1_053_067, 1_053_068,
];

/// What both readers answer to a refused file.
fn refused(refusal: Refusal) -> (Option<LoadFault>, Option<LoadFault>) {
    let fault = Some(LoadFault::Refused(refusal));
    (fault, fault)
}

/// In which piece of the guest's file a cut before the page's end is found: the bytes between the bitmap and the page
/// belong to none.
fn piece_of(start: usize, cut: usize) -> usize {
    if (96..0x10_0000).contains(&cut) {
        0x10_0000
    } else {
        start
    }
}

#[test]
fn a_cut_file_names_the_piece_that_it_ends_in(rt: HostRuntime) -> Result<(), Fail> {
    let alloc = rt.alloc();
    let file = old_guest_file(alloc)?;
    assert_eq!(rt; file.len(), 1_053_068);
    for pair in STARTS.windows(2) {
        if let [start, next] = pair {
            let last = next.saturating_sub(1);
            for cut in [*start, last.min(start.saturating_add(1)), last] {
                let at = piece_of(*start, cut) as u64;
                assert_eq!(rt;
                    faults_of(alloc, front(alloc, &file, cut)?)?,
                    refused(Refusal::Truncated { at }),
                    "cut at {cut}"
                );
            }
        }
    }
    for cut in [95, 96, 97, 0x8_0000] {
        let at = piece_of(88, cut) as u64;
        let cut = front(alloc, &file, cut)?;
        assert_eq!(rt; faults_of(alloc, cut)?, refused(Refusal::Truncated { at }));
    }
    let newer = guest_file(alloc)?;
    for (cut, at) in [
        (1_053_071, 1_053_071),
        (1_053_025, 1_053_010),
        (1_053_026, 1_053_026),
    ] {
        let cut = front(alloc, &newer, cut)?;
        assert_eq!(rt; faults_of(alloc, cut)?, refused(Refusal::Truncated { at }));
    }
    Ok(())
}

#[test]
fn nothing_follows_the_last_byte(rt: HostRuntime) -> Result<(), Fail> {
    let alloc = rt.alloc();
    for file in [old_guest_file(alloc)?, guest_file(alloc)?] {
        let at = file.len() as u64;
        for extra in [[0].as_slice(), [0x51, 0x45].as_slice()] {
            let mut file = file.as_slice().to_vec(alloc)?;
            file.extend_from_slice(extra)?;
            assert_eq!(rt; faults_of(alloc, file)?, refused(Refusal::Trailing { at }));
        }
    }
    Ok(())
}

const MANY: u64 = 0x4000_0000_0000_0001;

/// A place of the guest's file with the serial section of version 1, other bytes for it, and the refusal.
#[rattlefmt::skip]
static WRONG_BYTES: [(usize, &[u8], Refusal); 57] = [
    (0, &[0], Refusal::Magic(0x0045_564d)),
    (3, &[0x4e], Refusal::Magic(0x5145_564e)),
    (7, &[2], Refusal::StreamVersion(2)),
    (4, &[1], Refusal::StreamVersion(0x0100_0003)),
    (8, &[6], Refusal::Config { at: 8, found: 6 }),
    (12, &[10], Refusal::Config { at: 12, found: 10 }),
    (21, b"5", Refusal::Config { at: 21, found: b'5' }),
    (22, &[4], Refusal::Section { at: 22, found: 4 }),
    (26, &[3], Refusal::Section { at: 26, found: 3 }),
    (34, &[1], Refusal::Section { at: 34, found: 1 }),
    (38, &[3], Refusal::RamVersion(3)),
    (39, &[0, 0, 0, 0, 0, 0, 0x10, 0], Refusal::Flags { at: 39, v: 0x1000 }),
    (39, &[0, 0, 0, 0, 0, 0, 0x10, 5], Refusal::Flags { at: 39, v: 0x1005 }),
    (39, &[0, 0, 0, 0, 0, 0, 0x18, 4], Refusal::Flags { at: 39, v: 0x1804 }),
    (39, &[0, 0, 0, 0, 0, 0, 0, 4], Refusal::Total(4)),
    (39, &[0xff, 0xff, 0xff, 0xff, 0xff, 0xff, 0xf0, 4], Refusal::Total(0xffff_ffff_ffff_f004)),
    (39, &[0, 0, 0, 0, 4, 0, 0x10, 4], Refusal::Total(0x0400_1004)),
    (39, &[0, 0, 0, 0, 4, 0, 0, 4], Refusal::Length { block: 0, v: 0x1000 }),
    (39, &[0, 0, 0, 0, 0, 0, 0x90, 4], Refusal::Length { block: 0, v: 0x1000 }),
    (39, &[0, 0, 0, 0, 0, 0, 0x80, 4], Refusal::Name { block: 1, at: 0x10_1000, found: 0 }),
    (39, &[0, 0, 0, 0, 0, 0, 0x20, 4], Refusal::Name { block: 1, at: 0x10_1000, found: 0 }),
    (47, &[3], Refusal::Name { block: 0, at: 47, found: 3 }),
    (51, b"1", Refusal::Name { block: 0, at: 51, found: b'1' }),
    (52, &[0, 0, 0, 0, 0, 0, 0, 0], Refusal::Length { block: 0, v: 0 }),
    (52, &[0, 0, 0, 0, 0, 0, 0x08, 0], Refusal::Length { block: 0, v: 0x800 }),
    (52, &[0, 0, 0, 0, 0, 0, 0x10, 1], Refusal::Length { block: 0, v: 0x1001 }),
    (52, &[0, 0, 0, 0, 0, 0, 0x20, 0], Refusal::Length { block: 0, v: 0x2000 }),
    (52, &[0x10, 0, 0, 0, 0, 0, 0, 0], Refusal::Length { block: 0, v: 0x1000_0000_0000_0000 }),
    (60, &[0, 0, 0, 2], Refusal::Header { block: 0, fault: HeaderFault::Version(2) }),
    (60, &[0, 0, 0, 2, 0, 0, 0, 0, 0, 0, 0x20, 0], Refusal::Header { block: 0, fault: HeaderFault::Version(2) }),
    (64, &[0, 0, 0, 0, 0, 0, 0x20, 0], Refusal::Header { block: 0, fault: HeaderFault::PageSize(0x2000) }),
    (72, &[0xff; 8], Refusal::Header { block: 0, fault: HeaderFault::BitmapOffset(u64::MAX) }),
    (80, &[0, 0, 0, 0, 0, 0x20, 0, 0], Refusal::Header { block: 0, fault: HeaderFault::PagesOffset(0x20_0000) }),
    (0x10_1007, &[0], Refusal::Flags { at: 0x10_1000, v: 0 }),
    (0x10_1006, &[1], Refusal::Flags { at: 0x10_1000, v: 0x110 }),
    (0x10_1008, &[0x7f], Refusal::Footer { at: 0x10_1008, found: 0x7f }),
    (0x10_100c, &[3], Refusal::Footer { at: 0x10_100c, found: 3 }),
    (0x10_100d, &[2], Refusal::Section { at: 0x10_100d, found: 2 }),
    (0x10_1011, &[3], Refusal::Section { at: 0x10_1011, found: 3 }),
    (0x10_1019, &[0x20], Refusal::Flags { at: 0x10_1012, v: 0x20 }),
    (0x10_101a, &[0], Refusal::Footer { at: 0x10_101a, found: 0 }),
    (0x10_101e, &[4], Refusal::Footer { at: 0x10_101e, found: 4 }),
    (0x10_101f, &[1], Refusal::Section { at: 0x10_101f, found: 1 }),
    (1_052_708, &[6], Refusal::Section { at: 1_052_708, found: 6 }),
    (1_052_976, &[0x40, 0, 0, 0, 0, 0, 0, 1], Refusal::Device { at: 1_052_976, fault: DeviceFault::Steps(MANY) }),
    (1_052_984, &[11], Refusal::Device { at: 1_052_984, fault: DeviceFault::State(11) }),
    (1_052_984, &[0xff], Refusal::Device { at: 1_052_984, fault: DeviceFault::State(0xff) }),
    (0x10_1139, &[0], Refusal::Footer { at: 0x10_1139, found: 0 }),
    (0x10_1151, &[0], Refusal::Section { at: 0x10_1151, found: 0 }),
    (0x10_1151, &[3], Refusal::Section { at: 0x10_1151, found: 3 }),
    (1_053_018, &[0xff, 0xff, 0xff, 0xff], Refusal::Device { at: 1_053_018, fault: DeviceFault::SerialLength(u32::MAX) }),
    (1_053_018, &[0, 1, 0, 1], Refusal::Device { at: 1_053_018, fault: DeviceFault::SerialLength(65_537) }),
    (1_053_018, &[0, 1, 0, 0], Refusal::Truncated { at: 1_053_022 }),
    (1_053_022, &[0x7c], Refusal::Footer { at: 1_053_022, found: 0x7c }),
    (1_053_027, &[0], Refusal::Section { at: 1_053_027, found: 0 }),
    (1_053_046, &[0x40, 0, 0, 0, 0, 0, 0, 1], Refusal::Device { at: 1_053_046, fault: DeviceFault::Clock(MANY) }),
    (1_053_067, &[2], Refusal::Section { at: 1_053_067, found: 2 }),
];

#[test]
fn the_first_wrong_piece_is_named(rt: HostRuntime) -> Result<(), Fail> {
    let alloc = rt.alloc();
    let file = old_guest_file(alloc)?;
    for (at, bytes, refusal) in &WRONG_BYTES {
        assert_eq!(rt;
            faults_of(alloc, changed(alloc, &file, *at, bytes)?)?,
            refused(*refusal),
            "{bytes:?} at {at}"
        );
    }
    let newer = guest_file(alloc)?;
    let long = changed(alloc, &newer, 0x10_115e, &[0, 0, 0x10, 1])?;
    let fault = DeviceFault::InputLength(4097);
    assert_eq!(rt;
        faults_of(alloc, long)?,
        refused(Refusal::Device {
            at: 1_053_022,
            fault
        })
    );
    Ok(())
}

#[test]
fn the_most_that_a_number_may_be_is_accepted(rt: HostRuntime) -> Result<(), Fail> {
    let alloc = rt.alloc();
    let file = old_guest_file(alloc)?;
    for (at, bytes) in [
        (1_052_976, [0x40, 0, 0, 0, 0, 0, 0, 0].as_slice()),
        (1_052_984, [10].as_slice()),
        (1_053_010, [0xff; 8].as_slice()),
        (1_053_046, [0x40, 0, 0, 0, 0, 0, 0, 0].as_slice()),
        (1_053_054, [0xff; 8].as_slice()),
    ] {
        assert_eq!(rt;
            faults_of(alloc, changed(alloc, &file, at, bytes)?)?,
            (None, None)
        );
    }
    Ok(())
}

/// A place of the file of two blocks of one page, in the record of the second, other bytes for it, and the refusal.
#[rattlefmt::skip]
static WRONG_SECOND_RECORDS: [(usize, &[u8], Refusal); 11] = [
    (0x10_1000, &[5], Refusal::Name { block: 1, at: 0x10_1000, found: 5 }),
    (0x10_1001, b"R", Refusal::Name { block: 1, at: 0x10_1001, found: b'R' }),
    (0x10_1004, b"0", Refusal::Name { block: 1, at: 0x10_1004, found: b'0' }),
    (0x10_1004, b"2", Refusal::Name { block: 1, at: 0x10_1004, found: b'2' }),
    (0x10_1005, &[0, 0, 0, 0, 0, 0, 0, 0], Refusal::Length { block: 1, v: 0 }),
    (0x10_1005, &[0, 0, 0, 0, 0, 0, 0x20, 0], Refusal::Length { block: 1, v: 0x2000 }),
    (0x10_100d, &[0, 0, 0, 0], Refusal::Header { block: 1, fault: HeaderFault::Version(0) }),
    (0x10_1011, &[0, 0, 0, 0, 0, 0, 0x10, 1], Refusal::Header { block: 1, fault: HeaderFault::PageSize(0x1001) }),
    (0x10_1019, &[0, 0, 0, 0, 0, 0, 0, 0x58], Refusal::Header { block: 1, fault: HeaderFault::BitmapOffset(88) }),
    (0x10_1021, &[0, 0, 0, 0, 0, 0x10, 0, 0], Refusal::Header { block: 1, fault: HeaderFault::PagesOffset(0x10_0000) }),
    (52, &[0, 0, 0, 0, 0, 0, 0x20, 0], Refusal::Flags { at: 0x10_2000, v: 0 }),
];

/// Where the pieces of the second block begin in that file, and where the tail does.
const SECOND_STARTS: [usize; 6] = [
    0x10_1000, 0x10_1005, 0x10_100d, 0x10_1029, 0x20_0000, 0x20_1000,
];

#[test]
fn the_second_block_is_read_as_the_first(rt: HostRuntime) -> Result<(), Fail> {
    let alloc = rt.alloc();
    let mut image = vec![in alloc; 0u8; 8192]?;
    image[..8].copy_from_slice(&GUEST);
    image[8191] = 7;
    let file = file_of(alloc, &booted(alloc, (1, 2, 1), &image, &[])?)?;
    assert_eq!(rt; file.len(), 2_101_648);
    assert_eq!(rt;
        faults_of(alloc, file.as_slice().to_vec(alloc)?)?,
        (None, None)
    );
    for (at, bytes, refusal) in &WRONG_SECOND_RECORDS {
        assert_eq!(rt;
            faults_of(alloc, changed(alloc, &file, *at, bytes)?)?,
            refused(*refusal),
            "{bytes:?} at {at}"
        );
    }
    for pair in SECOND_STARTS.windows(2) {
        if let [start, next] = pair {
            let at = *start as u64;
            let last = next.saturating_sub(1);
            let last = if *start == 0x10_1029 { 0x10_1030 } else { last };
            for cut in [*start, start.saturating_add(1), last] {
                let cut = front(alloc, &file, cut)?;
                assert_eq!(rt; faults_of(alloc, cut)?, refused(Refusal::Truncated { at }));
            }
        }
    }
    Ok(())
}

#[test]
fn the_first_saved_page_that_is_cut_is_named(rt: HostRuntime) -> Result<(), Fail> {
    let alloc = rt.alloc();
    let file = file_of(alloc, &booted(alloc, (1, 1, 2), &GUEST, &[])?)?;
    for (bits, cut, at) in [
        (1, 0x10_0fff, 0x10_0000),
        (1, 0x10_1000, 0x10_2000),
        (1, 0x10_1fff, 0x10_2000),
        (1, 0x10_2007, 0x10_2000),
        (2, 96, 0x10_1000),
        (2, 0x10_0000, 0x10_1000),
        (2, 0x10_1fff, 0x10_1000),
        (2, 0x10_2000, 0x10_2000),
        (3, 96, 0x10_0000),
        (3, 0x10_1000, 0x10_1000),
        (0, 96, 0x10_2000),
        (4, 96, 0x10_2000),
    ] {
        let file = front(alloc, &changed(alloc, &file, 88, &[bits])?, cut)?;
        assert_eq!(rt;
            faults_of(alloc, file)?,
            refused(Refusal::Truncated { at }),
            "bits {bits} cut at {cut}"
        );
    }
    Ok(())
}
