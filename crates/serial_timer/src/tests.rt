use super::*;
use ram_block::TimerReg;
use std::test::Fail;

// A guest of the input `Ab` reads 0x41 and 0x62, and then finds a status of 0x20.
#[test]
fn input_is_read_to_its_end_and_then_gives_0(rt: HostRuntime) -> Result<(), Fail> {
    let mut serial = Serial::new(rt.alloc(), b"Ab")?;
    assert_eq!(rt; serial.input(), b"Ab".as_slice());
    assert_eq!(rt; serial.status(), 0x21);
    assert_eq!(rt; serial.read(), 0x41);
    assert_eq!(rt; serial.input(), b"b".as_slice());
    assert_eq!(rt; serial.read(), 0x62);
    assert_eq!(rt; serial.status(), 0x20);
    assert_eq!(rt; serial.read(), 0);
    assert_eq!(rt; serial.read(), 0);
    assert!(rt; serial.input().is_empty());
    Ok(())
}

#[test]
fn a_device_keeps_65536_bytes_and_counts_the_others(rt: HostRuntime) -> Result<(), Fail> {
    let mut serial = Serial::new(rt.alloc(), b"")?;
    for k in 0..65_536u32 {
        assert_eq!(rt; serial.status(), 0x20, "after {k} bytes");
        serial.write((k % 251) as u8);
    }
    assert_eq!(rt; serial.status(), 0);
    assert_eq!(rt; serial.lost(), 0);
    serial.write(7);
    assert_eq!(rt; serial.lost(), 1);
    assert_eq!(rt; serial.bytes().len(), 65_536);
    assert_eq!(rt; serial.bytes().last(), Some(&24));
    Ok(())
}

#[test]
fn a_device_made_whole_has_what_it_was_given(rt: HostRuntime) -> Result<(), Fail> {
    let full = vec![in rt.alloc(); 9u8; 65_536]?;
    let input = vec![in rt.alloc(); 5u8; 4_096]?;
    let mut serial = Serial::of(rt.alloc(), &full, u64::MAX - 1, &input)?;
    assert_eq!(rt; serial.status(), 0x01);
    assert_eq!(rt; serial.input().len(), 4_096);
    for lost in [u64::MAX, u64::MAX] {
        serial.write(1);
        assert_eq!(rt; serial.lost(), lost);
    }
    let mut serial = Serial::of(rt.alloc(), b"xy", 3, b"")?;
    serial.write(b'z');
    assert_eq!(rt; serial.bytes(), b"xyz".as_slice());
    assert_eq!(rt; serial.lost(), 3);
    Ok(())
}

#[test]
fn the_timer_is_due_from_its_compare_value_on(rt: HostRuntime) {
    let mut timer = Timer::of(0);
    assert_eq!(rt; timer.read(TimerReg::Due, 0), 1);
    timer.write(100);
    for (time, due) in [(0, 0), (99, 0), (100, 1), (101, 1), (u64::MAX, 1)] {
        assert_eq!(rt; timer.read(TimerReg::Time, time), time);
        assert_eq!(rt; timer.read(TimerReg::Cmp, time), 100);
        assert_eq!(rt; timer.read(TimerReg::Due, time), due, "at {time}");
    }
    assert_eq!(rt; timer.cmp(), 100);
}
