use super::*;
use std::test::Fail;

#[test]
fn a_new_page_has_4096_zeros(rt: HostRuntime) -> Result<(), Fail> {
    let mut page = PageBuf::new(rt.alloc())?;
    assert_eq!(rt; page.bytes().len(), 4096);
    assert!(rt; page.bytes().iter().all(|b| *b == 0));
    page.bytes_mut()[4095] = 7;
    let mut copy = PageBuf::new(rt.alloc())?;
    copy.copy_from(&page);
    assert_eq!(rt; copy.bytes()[4095], 7);
    assert_eq!(rt; page.copy(rt.alloc())?.bytes()[4095], 7);
    Ok(())
}

#[test]
fn a_page_of_bytes_ends_with_zeros(rt: HostRuntime) -> Result<(), Fail> {
    let whole = [9; 4096];
    for count in [0, 1, 4095, 4096] {
        let page = PageBuf::of_bytes(rt.alloc(), &whole[..count])?;
        assert_eq!(rt; page.bytes().len(), 4096);
        for (place, byte) in page.bytes().iter().enumerate() {
            assert_eq!(rt;
                *byte,
                if place < count { 9 } else { 0 },
                "{count} bytes, at {place}"
            );
        }
    }
    Ok(())
}

// Proofs take these from the code, so here they are written out.
#[test]
fn the_limits_that_crates_share(rt: HostRuntime) {
    assert_eq!(rt; MAX_PHASE, 1_000_000);
    assert_eq!(rt; MAX_INPUT, 4_096);
    assert_eq!(rt; MOST_AT_REST, 4_611_686_018_427_387_904);
    assert_eq!(rt; MAX_RAM, 67_108_864);
}

#[test]
fn a_cause_has_the_code_of_the_table(rt: HostRuntime) {
    for (code, cause) in [
        (1, Cause::FetchMisaligned),
        (2, Cause::FetchOutside),
        (3, Cause::Illegal),
        (4, Cause::JumpMisaligned),
        (5, Cause::LoadMisaligned),
        (6, Cause::LoadOutside),
        (7, Cause::StoreMisaligned),
        (8, Cause::StoreOutside),
        (9, Cause::Ecall),
        (10, Cause::Ebreak),
    ] {
        assert_eq!(rt; cause.code(), code);
        assert_eq!(rt; Cause::of_code(code), Some(cause));
    }
    for code in [0, 11, 255] {
        assert_eq!(rt; Cause::of_code(code), None);
    }
}

#[test]
fn a_shape_knows_its_limits(rt: HostRuntime) -> Result<(), Fail> {
    let largest = Shape::new(8, 8, 2048)?;
    assert_eq!(rt; largest.ram_bytes(), 64 * 1024 * 1024);
    for (vcpus, blocks, pages, fault) in [
        (9, 9, 0, ShapeFault::Vcpus(9)),
        (8, 9, 0, ShapeFault::Blocks(9)),
        (1, 1, 2049, ShapeFault::Pages(2049)),
    ] {
        assert_eq!(rt; Shape::new(vcpus, blocks, pages), Err(fault));
    }
    Ok(())
}

// What an access answers where RAM is two blocks of three pages, and so ends before 0x8000_6000.
#[rattlefmt::skip]
static EDGES: [(u64, Width, Way, Result<Place, Cause>); 22] = [
    (0, Width::One, Way::Load, Err(Cause::LoadOutside)),
    (0x7fff_ffff, Width::One, Way::Store, Err(Cause::StoreOutside)),
    (0x7fff_fffc, Width::Four, Way::Fetch, Err(Cause::FetchOutside)),
    (0x7fff_fffc, Width::Eight, Way::Load, Err(Cause::LoadMisaligned)),
    (0x8000_0000, Width::One, Way::Store, Ok(Place::Ram { page: 0, off: 0 })),
    (0x8000_0000, Width::Four, Way::Fetch, Ok(Place::Ram { page: 0, off: 0 })),
    (0x8000_0ffe, Width::Two, Way::Load, Ok(Place::Ram { page: 0, off: 4094 })),
    (0x8000_0ffe, Width::Four, Way::Load, Err(Cause::LoadMisaligned)),
    (0x8000_3008, Width::Eight, Way::Amo, Ok(Place::Ram { page: 3, off: 8 })),
    (0x8000_5ff8, Width::Eight, Way::Amo, Ok(Place::Ram { page: 5, off: 4088 })),
    (0x8000_5ffc, Width::Four, Way::Fetch, Ok(Place::Ram { page: 5, off: 4092 })),
    (0x8000_5ffc, Width::Eight, Way::Store, Err(Cause::StoreMisaligned)),
    (0x8000_5ffe, Width::Two, Way::Store, Ok(Place::Ram { page: 5, off: 4094 })),
    (0x8000_5ffe, Width::Four, Way::Fetch, Err(Cause::FetchMisaligned)),
    (0x8000_5fff, Width::One, Way::Load, Ok(Place::Ram { page: 5, off: 4095 })),
    (0x8000_5fff, Width::Two, Way::Load, Err(Cause::LoadMisaligned)),
    (0x8000_6000, Width::One, Way::Load, Err(Cause::LoadOutside)),
    (0x8000_6000, Width::Four, Way::Fetch, Err(Cause::FetchOutside)),
    (0x8000_6000, Width::Four, Way::Amo, Err(Cause::StoreOutside)),
    (0xffff_ffff_ffff_fffc, Width::Eight, Way::Amo, Err(Cause::StoreMisaligned)),
    (0xffff_ffff_ffff_fff8, Width::Eight, Way::Load, Err(Cause::LoadOutside)),
    (0xffff_ffff_ffff_ffff, Width::One, Way::Store, Err(Cause::StoreOutside)),
];

#[test]
fn accesses_at_the_edges_of_ram(rt: HostRuntime) -> Result<(), Fail> {
    let shape = Shape::new(1, 2, 3)?;
    for &(addr, width, way, answer) in &EDGES {
        assert_eq!(rt; shape.locate(addr, width, way), answer, "at {addr:x}");
    }
    let largest = Shape::new(8, 8, 2048)?;
    let last = Place::Ram {
        page: 16_383,
        off: 4095,
    };
    assert_eq!(rt;
        largest.locate(0x83ff_ffff, Width::One, Way::Load),
        Ok(last)
    );
    assert_eq!(rt;
        largest.locate(0x8400_0000, Width::One, Way::Load),
        Err(Cause::LoadOutside)
    );
    Ok(())
}

// The memory map's rows, each an address, a width, a way and a register.
#[rattlefmt::skip]
static ROWS: [(u64, Width, Way, Place); 7] = [
    (0x1000_0000, Width::One, Way::Store, Place::Serial(SerialReg::Tx)),
    (0x1000_0000, Width::One, Way::Load, Place::Serial(SerialReg::Rx)),
    (0x1000_0005, Width::One, Way::Load, Place::Serial(SerialReg::Status)),
    (0x0200_0000, Width::Eight, Way::Load, Place::Timer(TimerReg::Time)),
    (0x0200_0008, Width::Eight, Way::Load, Place::Timer(TimerReg::Cmp)),
    (0x0200_0008, Width::Eight, Way::Store, Place::Timer(TimerReg::Cmp)),
    (0x0200_0010, Width::Eight, Way::Load, Place::Timer(TimerReg::Due)),
];

static WIDTHS: [(Width, u64); 4] = [
    (Width::One, 1),
    (Width::Two, 2),
    (Width::Four, 4),
    (Width::Eight, 8),
];

static WAYS: [(Way, Cause, Cause); 4] = [
    (Way::Fetch, Cause::FetchMisaligned, Cause::FetchOutside),
    (Way::Load, Cause::LoadMisaligned, Cause::LoadOutside),
    (Way::Store, Cause::StoreMisaligned, Cause::StoreOutside),
    (Way::Amo, Cause::StoreMisaligned, Cause::StoreOutside),
];

#[test]
fn a_device_has_the_rows_of_the_map_and_no_other_access(rt: HostRuntime) -> Result<(), Fail> {
    let shape = Shape::new(1, 1, 1)?;
    for &(addr, ..) in &ROWS {
        for &(width, bytes) in &WIDTHS {
            for &(way, misaligned, outside) in &WAYS {
                let mut answer = Err(if addr % bytes == 0 {
                    outside
                } else {
                    misaligned
                });
                for row in &ROWS {
                    if row.0 == addr && row.1 == width && row.2 == way {
                        answer = Ok(row.3);
                    }
                }
                assert_eq!(rt; shape.locate(addr, width, way), answer, "at {addr:x}");
            }
        }
    }
    Ok(())
}
