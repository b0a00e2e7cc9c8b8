ghost use Rattle.std.specs.Prelude.{Some, None};

use super::*;
use medium::{FailPlan, Failed, MemSource, Source};
use ram_block::Shape;
use std::alloc::{AllocError, Global};
use std::test::Fail;

// The instructions addi x5, x0, 1 and ecall.
const CODE: u64 = 0x0000_0073_0010_0293;

// Puts the low bytes of a number at a place.
fn put(file: &mut [u8], at: usize, len: usize, value: u64) {
    for (place, byte) in file.iter_mut().skip(at).take(len).zip(value.to_le_bytes()) {
        *place = byte;
    }
}

// A program header for a segment of type 1.
fn put_segment(file: &mut [u8], at: u8, p_offset: u64, p_paddr: u64, p_filesz: u64, p_memsz: u64) {
    let at = usize::from(at);
    put(file, at, 4, 1);
    put(file, at + 8, 8, p_offset);
    put(file, at + 16, 8, 0x1234_5678);
    put(file, at + 24, 8, p_paddr);
    put(file, at + 32, 8, p_filesz);
    put(file, at + 40, 8, p_memsz);
}

// A file header with so many program headers behind it.
fn put_file_header(file: &mut [u8], count: u64) {
    put(file, 0, 8, 0x0001_0102_464c_457f);
    put(file, 18, 2, 243);
    put(file, 32, 8, 64);
    put(file, 54, 2, 56);
    put(file, 56, 2, count);
}

// A file with one segment: the code at the start of RAM, and zeros behind it.
fn one_segment() -> [u8; 128] {
    let mut file = [0; 128];
    put_file_header(&mut file, 1);
    put_segment(&mut file, 64, 120, 0x8000_0000, 8, 16);
    put(&mut file, 120, 8, CODE);
    file
}

// A file with two segments of its last sixteen bytes, which are 1 to 16: the first eight of them at the start of RAM
// with eight zeros behind them, and the last eight, four bytes further on, with two zeros behind them.
fn two_segments() -> [u8; 192] {
    let mut file = [0; 192];
    put_file_header(&mut file, 2);
    put_segment(&mut file, 64, 176, 0x8000_0000, 8, 16);
    put_segment(&mut file, 120, 184, 0x8000_0004, 4, 6);
    put(&mut file, 176, 8, 0x0807_0605_0403_0201);
    put(&mut file, 184, 8, 0x100f_0e0d_0c0b_0a09);
    file
}

fn source(alloc: Global, bytes: &[u8]) -> Result<MemSource, AllocError> {
    let plan = FailPlan {
        calls: Vec::new(alloc),
        from: None,
    };
    Ok(MemSource::new(Vec::from_slice(alloc, bytes)?, plan))
}

// The image of a machine with one page.
fn image(alloc: Global, bytes: &[u8]) -> Result<Result<Vec<u8>, ImageFault>, Fail> {
    let shape = Shape::new(1, 1, 1)?;
    Ok(read_image(alloc, &mut source(alloc, bytes)?, &shape))
}

fn elf(kind: ElfKind, at: u64) -> Option<ImageFault> {
    Some(ImageFault::Refused(ImageRefusal::Elf { kind, at }))
}

#[test]
fn a_flat_image_has_a_byte_and_fits_in_ram(rt: HostRuntime) -> Result<(), Fail> {
    let alloc = rt.alloc();
    let bytes = [0x7f; 4097];
    for (len, refusal) in [
        (0, Some(ImageFault::Refused(ImageRefusal::Empty))),
        (1, None),
        (4096, None),
        (4097, Some(ImageFault::Refused(ImageRefusal::TooLong(4097)))),
    ] {
        match image(alloc, &bytes[..len])? {
            Ok(image) => {
                assert_eq!(rt; image.as_slice(), &bytes[..len]);
                assert_eq!(rt; None, refusal);
            }
            Err(fault) => assert_eq!(rt; Some(fault), refusal),
        }
    }
    Ok(())
}

#[test]
fn an_elf_file_is_cut_short_of_its_header(rt: HostRuntime) -> Result<(), Fail> {
    let file = one_segment();
    for (len, refusal) in [
        (4, elf(ElfKind::Short, 0)),
        (63, elf(ElfKind::Short, 0)),
        (64, elf(ElfKind::Table, 32)),
        (119, elf(ElfKind::Table, 32)),
        (120, elf(ElfKind::Range, 72)),
        (127, elf(ElfKind::Range, 72)),
    ] {
        assert_eq!(rt;
            image(rt.alloc(), &file[..len])?.err(),
            refusal,
            "{len} bytes"
        );
    }
    Ok(())
}

#[test]
fn each_field_is_tested_at_its_place(rt: HostRuntime) -> Result<(), Fail> {
    for (at, len, value, refusal) in [
        (4, 1, 1, elf(ElfKind::Class, 4)),
        (5, 1, 2, elf(ElfKind::Encoding, 5)),
        (18, 2, 62, elf(ElfKind::Machine, 18)),
        (54, 2, 64, elf(ElfKind::EntrySize, 54)),
        (32, 8, 73, elf(ElfKind::Table, 32)),
        (32, 8, 0xffff_ffff_ffff_ffc8, elf(ElfKind::Table, 32)),
        (56, 2, 2, elf(ElfKind::Table, 32)),
        (96, 8, 17, elf(ElfKind::Sizes, 96)),
        (72, 8, 121, elf(ElfKind::Range, 72)),
        (72, 8, 0xffff_ffff_ffff_fff8, elf(ElfKind::Range, 72)),
        (88, 8, 0x8000_1000, elf(ElfKind::Place, 88)),
        (88, 8, 0x8000_0ff1, elf(ElfKind::Place, 88)),
        (88, 8, 0x7fff_ffff, elf(ElfKind::Place, 88)),
        (88, 8, 0xffff_ffff_ffff_fff8, elf(ElfKind::Place, 88)),
        (104, 8, 0x1001, elf(ElfKind::Place, 88)),
        (104, 8, 0xffff_ffff_8000_0000, elf(ElfKind::Place, 88)),
    ] {
        let mut file = one_segment();
        put(&mut file, at, len, value);
        assert_eq!(rt;
            image(rt.alloc(), &file)?.err(),
            refusal,
            "{value:x} at {at}"
        );
    }
    Ok(())
}

#[test]
fn the_second_header_is_tested_as_the_first_is(rt: HostRuntime) -> Result<(), Fail> {
    for (at, len, value, refusal) in [
        (56, 2, 3, elf(ElfKind::Table, 32)),
        (152, 8, 7, elf(ElfKind::Sizes, 152)),
        (128, 8, 189, elf(ElfKind::Range, 128)),
        (144, 8, 0x8000_0ffb, elf(ElfKind::Place, 144)),
    ] {
        let mut file = two_segments();
        put(&mut file, at, len, value);
        assert_eq!(rt;
            image(rt.alloc(), &file)?.err(),
            refusal,
            "{value:x} at {at}"
        );
    }
    Ok(())
}

#[test]
fn a_segment_without_bytes_in_the_file_still_has_its_tests(rt: HostRuntime) -> Result<(), Fail> {
    // p_offset, p_paddr, p_filesz and p_memsz.
    for (p_offset, p_paddr, p_filesz, p_memsz, refusal) in [
        (128, 0x8000_0000, 0, 16, None),
        (129, 0x8000_0000, 0, 16, elf(ElfKind::Range, 72)),
        (128, 0, 0, 0, None),
        (129, 0, 0, 0, elf(ElfKind::Range, 72)),
        (120, 0, 1, 0, elf(ElfKind::Sizes, 96)),
    ] {
        let mut file = one_segment();
        put_segment(&mut file, 64, p_offset, p_paddr, p_filesz, p_memsz);
        match image(rt.alloc(), &file)? {
            Ok(image) => {
                assert_eq!(rt; image.len() as u64, p_memsz);
                assert!(rt; image.iter().all(|byte| *byte == 0));
                assert_eq!(rt; None, refusal);
            }
            Err(fault) => assert_eq!(rt; Some(fault), refusal, "{p_offset}, {p_filesz}"),
        }
    }
    Ok(())
}

#[test]
fn a_later_segment_stands_over_an_earlier_one(rt: HostRuntime) -> Result<(), Fail> {
    let alloc = rt.alloc();
    let both = image(alloc, &two_segments())?;
    let wanted = [1, 2, 3, 4, 9, 10, 11, 12, 0, 0, 0, 0, 0, 0, 0, 0];
    assert_eq!(rt;
        both.unwrap_or(Vec::new(alloc)).as_slice(),
        wanted.as_slice()
    );

    // The zeros of the second one stand over bytes of the first.
    let mut file = two_segments();
    put_segment(&mut file, 120, 184, 0x8000_0002, 1, 4);
    let wanted = [1, 2, 9, 0, 0, 0, 7, 8, 0, 0, 0, 0, 0, 0, 0, 0];
    assert_eq!(rt;
        image(alloc, &file)?.unwrap_or(Vec::new(alloc)).as_slice(),
        wanted.as_slice()
    );
    Ok(())
}

#[test]
fn a_segment_ends_with_ram(rt: HostRuntime) -> Result<(), Fail> {
    let mut file = one_segment();
    put(&mut file, 88, 8, 0x8000_0ff0);
    let alloc = rt.alloc();
    let image = image(alloc, &file)?.unwrap_or(Vec::new(alloc));
    assert_eq!(rt; image.len(), 4096);
    for (k, byte) in image.iter().enumerate() {
        let wanted = match k {
            4080 => 0x93,
            4081 => 0x02,
            4082 => 0x10,
            4084 => 0x73,
            _ => 0,
        };
        assert_eq!(rt; *byte, wanted, "at {k}");
    }
    Ok(())
}

#[test]
fn what_counts_no_segment_gives_no_byte(rt: HostRuntime) -> Result<(), Fail> {
    // A header of another type isn't looked at, and without headers their size and place aren't.
    for (at, len, value) in [(64, 4, 2), (56, 2, 0)] {
        let mut file = one_segment();
        put(&mut file, 72, 8, 0xffff_ffff_ffff_ffff);
        put(&mut file, at, len, value);
        if at == 56 {
            put(&mut file, 32, 8, 0xffff_ffff_ffff_ffff);
            put(&mut file, 54, 2, 1);
        }
        assert_eq!(rt; image(rt.alloc(), &file)?.map(|image| image.len()), Ok(0));
    }
    Ok(())
}

// A source that gives one byte at a time.
#[derive(Drop)]
struct Trickle {
    inner: MemSource,
}

impl Source for Trickle {
    ghost left = { λ s. Some s.inner.bytes_left };

    ghost faults = { λ s. s.inner.count.faults };

    fn read(&mut self, buf: &mut [u8]) -> Result<usize, Failed> {
        let n = buf.len().min(1);
        self.inner.read(&mut buf[..n])
    }
}

#[test]
fn a_source_that_trickles_gives_the_same_image(rt: HostRuntime) -> Result<(), Fail> {
    let alloc = rt.alloc();
    let mut trickle = Trickle {
        inner: source(alloc, &one_segment())?,
    };
    let shape = Shape::new(1, 1, 1)?;
    let image = read_image(alloc, &mut trickle, &shape).unwrap_or(Vec::new(alloc));
    let wanted = [0x93, 2, 0x10, 0, 0x73, 0, 0, 0, 0, 0, 0, 0, 0, 0, 0, 0];
    assert_eq!(rt; image.as_slice(), wanted.as_slice());
    Ok(())
}

// A source without an end, which tells no bytes.
#[derive(Drop)]
struct Endless;

impl Source for Endless {
    ghost left = { λ _. None };

    ghost faults = { λ _. 0 };

    fn read(&mut self, buf: &mut [u8]) -> Result<usize, Failed> {
        Ok(buf.len())
    }
}

#[test]
fn a_source_without_an_end_is_read_to_the_limit(rt: HostRuntime) -> Result<(), Fail> {
    let shape = Shape::new(1, 1, 1)?;
    let too_long = ImageFault::Refused(ImageRefusal::TooLong(134_217_729));
    assert_eq!(rt;
        read_image(rt.alloc(), &mut Endless, &shape).err(),
        Some(too_long)
    );
    Ok(())
}

#[test]
fn a_read_that_fails_is_told(rt: HostRuntime) -> Result<(), Fail> {
    let alloc = rt.alloc();
    let plan = FailPlan {
        calls: vec![in alloc; 2]?,
        from: None,
    };
    let mut source = MemSource::new(vec![in alloc; 1, 2, 3]?, plan);
    let shape = Shape::new(1, 1, 1)?;
    assert_eq!(rt;
        read_image(alloc, &mut source, &shape).err(),
        Some(ImageFault::ReadFault)
    );
    Ok(())
}

#[test]
fn bytes_are_read_up_to_a_limit(rt: HostRuntime) -> Result<(), Fail> {
    let alloc = rt.alloc();
    for (limit, refusal) in [
        (3, None),
        (2, Some(ImageFault::Refused(ImageRefusal::TooLong(3)))),
        (0, Some(ImageFault::Refused(ImageRefusal::TooLong(1)))),
    ] {
        match read_raw(alloc, &mut source(alloc, &[1, 2, 3])?, limit) {
            Ok(all) => {
                assert_eq!(rt; all.as_slice(), [1, 2, 3].as_slice());
                assert_eq!(rt; None, refusal);
            }
            Err(fault) => assert_eq!(rt; Some(fault), refusal),
        }
    }
    let nothing = read_raw(alloc, &mut source(alloc, &[])?, 0);
    assert_eq!(rt; nothing.map(|all| all.len()), Ok(0));
    Ok(())
}
