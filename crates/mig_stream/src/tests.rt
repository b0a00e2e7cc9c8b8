ghost use Rattle.std.specs.Prelude.{◌≤◌, length, None};

use super::*;
use medium::{FailPlan, Failed, MemBytes, MemMedium, Readable};
use std::test::Fail;

// A file that doesn't tell its bytes, and gives one of them a read, but for the one read that fails.
#[derive(Drop)]
struct OneByteReads {
    bytes: Vec<u8>,
    // Reads are numbered from 1.
    failing: u64,
    reads: u64,
    faults: u64,
}

fn one_byte_reads(bytes: Vec<u8>, failing: u64) -> OneByteReads {
    OneByteReads {
        bytes,
        failing,
        reads: 0,
        faults: 0,
    }
}

impl Readable for OneByteReads {
    ghost told = { λ _. None };

    ghost faults = { λ file. file.faults };

    ghost syncs = { λ _. 0 };

    ghost may_leave = { λ _ _. Unit {0} };

    ghost moment = { λ _. 0 };

    ghost left_since = { λ _ _ _. Unit {0} };

    fn len(&mut self) -> Result<u64, Failed> {
        Ok(self.bytes.len() as u64)
    }

    fn read_at(&mut self, at: u64, buf: &mut [u8]) -> Result<usize, Failed> {
        self.reads = self.reads.saturating_add(1);
        if self.reads == self.failing {
            self.faults = self.faults.saturating_add(1);
            return Err(Failed);
        }
        if buf.is_empty() || at >= self.bytes.len() as u64 {
            return Ok(0);
        }
        buf[0] = self.bytes[at as usize];
        Ok(1)
    }

    ghost told_is_image = { λ _ _ _. tt };

    ghost now_counts = { λ _ _ _ _ _. tt };

    ghost only_now = { λ _ _ _. tt };
}

#[test]
fn a_section_header_has_its_bytes(rt: HostRuntime) -> Result<(), Fail> {
    let mut out = Vec::new(rt.alloc());
    put_start(&mut out, FULL, 3, "cpu", 0, 1)?;
    put_part(&mut out, END, 2)?;
    put_footer(&mut out, 2)?;
    put_be32(&mut out, 0x5145_564d)?;
    put_be64(&mut out, 0x1004)?;
    let text = [
        0x04, 0, 0, 0, 3, 3, b'c', b'p', b'u', 0, 0, 0, 0, 0, 0, 0, 1, 0x03, 0, 0, 0, 2, 0x7e, 0,
        0, 0, 2, 0x51, 0x45, 0x56, 0x4d, 0, 0, 0, 0, 0, 0, 0x10, 0x04,
    ];
    assert_eq!(rt; out.as_slice(), text.as_slice());
    assert_eq!(rt; (START, EOF), (0x01, 0x00));
    Ok(())
}

#[test]
fn a_number_stands_at_a_place(rt: HostRuntime) {
    let bytes = [9, 0x51, 0x45, 0x56, 0x4d, 1, 2, 3, 4, 9];
    assert_eq!(rt; be32_at(&bytes, 1), 0x5145_564d);
    assert_eq!(rt; be32_at(&bytes, 6), 0x0203_0409);
    assert_eq!(rt; be64_at(&bytes, 1), 0x5145_564d_0102_0304);
    assert_eq!(rt; be64_at(&bytes, 2), 0x4556_4d01_0203_0409);
}

// A piece of three bytes, or none where it could not be read, and where the next piece begins.
fn take_three<M: Readable>(medium: &mut M, at: u8) -> (Result<[u8; 3], FieldFault>, u64) {
    let mut reader = FieldReader::new(medium, u64::from(at));
    let mut buf = [0; 3];
    let taken = reader.take(&mut buf);
    (taken.map(|()| buf), reader.at())
}

// What is answered where a text is expected, and where the next piece begins.
fn expect_text<M: Readable>(medium: &mut M, at: u8, text: &[u8]) -> (Result<(), TextFault>, u64)
    requires { length text.now ≤ 200 }
{
    let mut reader = FieldReader::new(medium, 0);
    reader.seek(u64::from(at));
    let answer = reader.expect(text);
    (answer, reader.at())
}

#[test]
fn a_piece_is_read_whole_or_not_at_all(rt: HostRuntime) -> Result<(), Fail> {
    let alloc = rt.alloc();
    let mut file = MemBytes::new(vec![in alloc; 1, 2, 3, 4, 5]?);
    assert_eq!(rt; take_three(&mut file, 0), (Ok([1, 2, 3]), 3));
    assert_eq!(rt; take_three(&mut file, 2), (Ok([3, 4, 5]), 5));
    for at in [3, 4, 5, 9] {
        let cut = FieldFault::Truncated { at: u64::from(at) };
        assert_eq!(rt; take_three(&mut file, at), (Err(cut), u64::from(at)));
    }
    Ok(())
}

#[test]
fn a_read_that_fails_leaves_the_place(rt: HostRuntime) -> Result<(), Fail> {
    let alloc = rt.alloc();
    let plan = FailPlan {
        calls: vec![in alloc; 1, 3]?,
        from: None,
    };
    let mut file = MemMedium::new(alloc, vec![in alloc; 1, 2, 3, 4]?, 8, 1, plan)?;
    assert_eq!(rt; take_three(&mut file, 0), (Err(FieldFault::ReadFault), 0));
    assert_eq!(rt; take_three(&mut file, 0), (Ok([1, 2, 3]), 3));
    let fault = TextFault::Field(FieldFault::ReadFault);
    assert_eq!(rt; expect_text(&mut file, 1, &[2, 3, 4]), (Err(fault), 1));
    assert_eq!(rt; expect_text(&mut file, 1, &[2, 3, 4]), (Ok(()), 4));
    Ok(())
}

#[test]
fn each_read_of_a_piece_may_fail(rt: HostRuntime) -> Result<(), Fail> {
    let alloc = rt.alloc();
    for failing in 1..=3 {
        let mut file = one_byte_reads(vec![in alloc; 9, 1, 2, 3]?, failing);
        assert_eq!(rt; take_three(&mut file, 1), (Err(FieldFault::ReadFault), 1));
        assert_eq!(rt; take_three(&mut file, 1), (Ok([1, 2, 3]), 4));

        let mut text = one_byte_reads(vec![in alloc; 9, 1, 2, 3]?, failing);
        let fault = TextFault::Field(FieldFault::ReadFault);
        assert_eq!(rt; expect_text(&mut text, 1, &[7, 2, 3]), (Err(fault), 1));
        assert_eq!(rt; expect_text(&mut text, 1, &[1, 2, 3]), (Ok(()), 4));
    }
    Ok(())
}

#[test]
fn a_number_that_was_put_is_read_back(rt: HostRuntime) -> Result<(), Fail> {
    let mut out = Vec::new(rt.alloc());
    put_be32(&mut out, 0x5145_564d)?;
    put_be64(&mut out, 0x0102_0304_0506_0708)?;
    let mut file = MemBytes::new(out);
    let mut reader = FieldReader::new(&mut file, 0);
    let mut word = [0; 4];
    let mut double = [0; 8];
    assert_eq!(rt; reader.take(&mut word), Ok(()));
    assert_eq!(rt; reader.at, 4);
    assert_eq!(rt; reader.take(&mut double), Ok(()));
    assert_eq!(rt; get_be32(&word), 0x5145_564d);
    assert_eq!(rt; get_be64(&double), 0x0102_0304_0506_0708);
    Ok(())
}

#[test]
fn the_first_byte_that_differs_is_named(rt: HostRuntime) -> Result<(), Fail> {
    let alloc = rt.alloc();
    let mut file = MemBytes::new(vec![in alloc; 9, 1, 2, 3]?);
    assert_eq!(rt; expect_text(&mut file, 1, &[1, 2, 3]), (Ok(()), 4));
    for (text, at, found) in [([7, 2, 7], 1, 1), ([1, 7, 7], 2, 2), ([1, 2, 7], 3, 3)] {
        let differs = TextFault::Differs { at, found };
        assert_eq!(rt; expect_text(&mut file, 1, &text), (Err(differs), 1));
    }
    let cut = TextFault::Field(FieldFault::Truncated { at: 1 });
    assert_eq!(rt; expect_text(&mut file, 1, &[7, 2, 3, 4]), (Err(cut), 1));
    Ok(())
}

#[test]
fn reads_of_one_byte_fill_a_piece(rt: HostRuntime) -> Result<(), Fail> {
    let alloc = rt.alloc();
    let mut file = one_byte_reads(vec![in alloc; 9, 1, 2, 3]?, 0);
    assert_eq!(rt; take_three(&mut file, 1), (Ok([1, 2, 3]), 4));
    assert_eq!(rt; expect_text(&mut file, 1, &[1, 2, 3]), (Ok(()), 4));
    let differs = TextFault::Differs { at: 2, found: 2 };
    assert_eq!(rt; expect_text(&mut file, 1, &[1, 7, 7]), (Err(differs), 1));
    Ok(())
}

#[test]
fn a_file_that_ends_in_a_piece_is_cut(rt: HostRuntime) -> Result<(), Fail> {
    let alloc = rt.alloc();
    let mut file = one_byte_reads(Vec::new(alloc), 0);
    for byte in [9, 1, 2] {
        file.bytes.push(byte)?;
        let cut = FieldFault::Truncated { at: 1 };
        assert_eq!(rt; take_three(&mut file, 1), (Err(cut), 1));
        let cut_text = TextFault::Field(cut);
        assert_eq!(rt; expect_text(&mut file, 1, &[1, 2, 3]), (Err(cut_text), 1));
        assert_eq!(rt; expect_text(&mut file, 1, &[7, 7, 7]), (Err(cut_text), 1));
    }
    file.bytes.push(3)?;
    assert_eq!(rt; take_three(&mut file, 1), (Ok([1, 2, 3]), 4));
    assert_eq!(rt; expect_text(&mut file, 1, &[1, 2, 3]), (Ok(()), 4));
    Ok(())
}

#[test]
fn a_text_of_several_turns_is_compared_whole(rt: HostRuntime) -> Result<(), Fail> {
    let alloc = rt.alloc();
    let mut text = [0; 130];
    for i in 0..text.len() {
        text[i] = i as u8;
    }
    let mut file = one_byte_reads(Vec::new(alloc), 0);
    file.bytes.extend_from_slice(&text)?;
    for len in [0, 1, 63, 64, 65, 128, 129, 130] {
        let answer = expect_text(&mut file, 0, &text[..len]);
        assert_eq!(rt; answer, (Ok(()), len as u64));
    }
    for i in [0, 63, 64, 127, 128, 129] {
        let mut other = text;
        other[i] = 255;
        other[129] = 255;
        let differs = TextFault::Differs {
            at: i as u64,
            found: i as u8,
        };
        assert_eq!(rt; expect_text(&mut file, 0, &other), (Err(differs), 0));
    }
    let cut = TextFault::Field(FieldFault::Truncated { at: 1 });
    assert_eq!(rt; expect_text(&mut file, 1, &text), (Err(cut), 1));
    Ok(())
}
