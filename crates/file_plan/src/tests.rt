use super::*;
use mapped_ram_header::{HEADER_LEN, HEADER_VERSION, PAGES_ALIGN};
use mig_stream::{END, EOF, FOOTER, FULL, START};
use page_bitmap::Bitmap;
use ram_block::{PAGE, Shape};
use std::test::Fail;

#[test]
fn the_second_block_stands_behind_the_first(rt: HostRuntime) -> Result<(), Fail> {
    let plan = Plan::of(&Shape::new(1, 2, 1)?);
    assert_eq!(rt; plan.record_at(0), 47);
    assert_eq!(rt; plan.page_at(0), 0x10_0000);
    assert_eq!(rt; plan.record_at(1), 0x10_1000);
    assert_eq!(rt; plan.places(1).header, 0x10_100d);
    assert_eq!(rt; plan.places(1).bitmap, 0x10_1029);
    assert_eq!(rt; plan.page_at(1), 0x20_0000);
    assert_eq!(rt; plan.tail_at(), 0x20_1000);
    assert_eq!(rt; (plan.head_at(0), plan.head_at(1)), (0, 0x10_1000));
    Ok(())
}

#[test]
fn the_largest_file_has_its_places(rt: HostRuntime) -> Result<(), Fail> {
    let plan = Plan::of(&Shape::new(8, 8, 2048)?);
    assert_eq!(rt; plan.places(7).pages, 0x400_0000);
    assert_eq!(rt; plan.page_at(16_383), 0x47f_f000);
    assert_eq!(rt; plan.tail_at() + 31, 75_497_503);
    assert_eq!(rt; (plan.head_len(0), plan.head_len(7)), (344, 297));
    Ok(())
}

#[test]
fn the_first_head_piece_has_the_front(rt: HostRuntime) -> Result<(), Fail> {
    let plan = Plan::of(&Shape::new(1, 1, 1)?);
    let mut bits = Bitmap::new(rt.alloc(), 1)?;
    bits.set(0);
    let mut head = [0xff; 96];
    assert_eq!(rt; plan.head_len(0), head.len());
    plan.put_head(0, &bits, &mut head);
    let wanted: [u8; 96] = [
        0x51, 0x45, 0x56, 0x4d, 0, 0, 0, 3, 7, 0, 0, 0, 9, 0x72, 0x76, 0x73, 0x6e, 0x61, 0x70,
        0x2d, 0x36, 0x34, 1, 0, 0, 0, 2, 3, 0x72, 0x61, 0x6d, 0, 0, 0, 0, 0, 0, 0, 4, 0, 0, 0, 0,
        0, 0, 0x10, 4, 4, 0x72, 0x61, 0x6d, 0x30, 0, 0, 0, 0, 0, 0, 0x10, 0, 0, 0, 0, 1, 0, 0, 0,
        0, 0, 0, 0x10, 0, 0, 0, 0, 0, 0, 0, 0, 0x58, 0, 0, 0, 0, 0, 0x10, 0, 0, 1, 0, 0, 0, 0, 0,
        0, 0,
    ];
    assert_eq!(rt; head.as_slice(), wanted.as_slice());
    Ok(())
}

#[test]
fn the_second_head_piece_begins_with_its_record(rt: HostRuntime) -> Result<(), Fail> {
    let plan = Plan::of(&Shape::new(1, 2, 1)?);
    let bits = Bitmap::new(rt.alloc(), 1)?;
    let mut head = [0xff; 49];
    assert_eq!(rt; plan.head_len(1), head.len());
    plan.put_head(1, &bits, &mut head);
    let wanted: [u8; 49] = [
        4, 0x72, 0x61, 0x6d, 0x31, 0, 0, 0, 0, 0, 0, 0x10, 0, 0, 0, 0, 1, 0, 0, 0, 0, 0, 0, 0x10,
        0, 0, 0, 0, 0, 0, 0x10, 0x10, 0x29, 0, 0, 0, 0, 0, 0x20, 0, 0, 0, 0, 0, 0, 0, 0, 0, 0,
    ];
    assert_eq!(rt; head.as_slice(), wanted.as_slice());
    Ok(())
}

#[test]
fn the_bitmap_has_whole_words(rt: HostRuntime) -> Result<(), Fail> {
    let one_word = Plan::of(&Shape::new(1, 1, 64)?);
    assert_eq!(rt; (one_word.head_len(0), one_word.tail_at()), (96, 0x14_0000));
    let two_words = Plan::of(&Shape::new(1, 1, 65)?);
    assert_eq!(rt;
        (two_words.head_len(0), two_words.tail_at()),
        (104, 0x14_1000)
    );
    let mut bits = Bitmap::new(rt.alloc(), 65)?;
    bits.set(1);
    bits.set(64);
    let mut head = [0xff; 104];
    two_words.put_head(0, &bits, &mut head);
    let wanted: [u8; 16] = [2, 0, 0, 0, 0, 0, 0, 0, 1, 0, 0, 0, 0, 0, 0, 0];
    assert_eq!(rt; &head[88..], wanted.as_slice());
    Ok(())
}

#[test]
fn the_tail_ends_the_ram(rt: HostRuntime) {
    let wanted: [u8; 31] = [
        0, 0, 0, 0, 0, 0, 0, 0x10, 0x7e, 0, 0, 0, 2, 3, 0, 0, 0, 2, 0, 0, 0, 0, 0, 0, 0, 0x10,
        0x7e, 0, 0, 0, 2,
    ];
    assert_eq!(rt; tail().as_slice(), wanted.as_slice());
}

#[test]
fn the_numbers_of_the_format_are_these(rt: HostRuntime) {
    assert_eq!(rt; (MAGIC, STREAM_VERSION, CONFIGURATION), (0x5145_564d, 3, 7));
    assert_eq!(rt; MACHINE_NAME.as_slice(), b"rvsnap-64".as_slice());
    assert_eq!(rt; (RAM_SECTION, RAM_VERSION), (2, 4));
    assert_eq!(rt; (RAM_NAME, GATE), (*b"ram", 0x51));
    assert_eq!(rt; (TOTAL_FLAG, END_FLAG), (4, 16));
    assert_eq!(rt; (FIRST_RECORD, RECORD_HEAD), (47, 13));
    assert_eq!(rt; (FRONT_LEN, RECORD_LEN, TAIL_LEN), (47, 41, 31));
    assert_eq!(rt; (START, END, FULL, FOOTER, EOF), (1, 3, 4, 0x7e, 0));
    assert_eq!(rt;
        (PAGE, PAGES_ALIGN, HEADER_LEN, HEADER_VERSION),
        (4096, 0x10_0000, 28, 1)
    );
}
