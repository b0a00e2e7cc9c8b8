use super::*;
use crate::format::{
    PC_AT, SERIAL_HEAD_BYTES, SERIAL_HEAD_BYTES_WITHOUT_INPUT, SERIAL_HEADER_BYTES, START_BYTES,
    STATE_AT, STEPS_AT, TIMER_BYTES, VCPU_BYTES,
};
use flat_machine::Machine;
use medium::{FailPlan, MemBytes, MemMedium};
use mig_stream::{FieldFault, FieldReader};
use ram_block::{Cause, Shape};
use rv64i_step::{State, Vcpu};
use std::alloc::Global;
use std::test::Fail;

#[test]
fn the_numbers_of_the_device_text_are_these(rt: HostRuntime) {
    assert_eq!(rt; (FIRST_DEVICE, CPU_VERSION, TIMER_VERSION), (3, 1, 1));
    assert_eq!(rt; (SERIAL_VERSION_WITHOUT_INPUT, SERIAL_VERSION), (1, 2));
    assert_eq!(rt;
        (VCPU_BYTES, PC_AT, STEPS_AT, STATE_AT),
        (265, 248, 256, 264)
    );
    assert_eq!(rt;
        (SERIAL_HEAD_BYTES_WITHOUT_INPUT, SERIAL_HEAD_BYTES),
        (12, 16)
    );
    assert_eq!(rt;
        (START_BYTES, SERIAL_HEADER_BYTES, TIMER_BYTES),
        (6, 14, 16)
    );
}

#[test]
fn a_machine_at_boot_has_its_device_text(rt: HostRuntime) -> Result<(), Fail> {
    let alloc = rt.alloc();
    let machine = Machine::boot(alloc, Shape::new(1, 1, 1)?, &[], &[7])?;
    assert!(rt; machine.at_rest());
    let text = put_devices(alloc, &machine)?;
    assert_eq!(rt; text.len(), 370);
    let front = [4, 0, 0, 0, 3, 3, b'c', b'p', b'u', 0, 0, 0, 0, 0, 0, 0, 1];
    assert_eq!(rt; &text[..17], front.as_slice());
    assert_eq!(rt; &text[265..273], [0, 0, 0, 0, 0x80, 0, 0, 0].as_slice());
    let serial_head = [
        0x7e, 0, 0, 0, 3, 4, 0, 0, 0, 4, 6, b's', b'e', b'r', b'i', b'a', b'l', 0, 0, 0, 0, 0, 0,
        0, 2,
    ];
    assert_eq!(rt; &text[282..307], serial_head.as_slice());
    assert_eq!(rt;
        &text[315..329],
        [0, 0, 0, 0, 0, 0, 0, 1, 7, 0x7e, 0, 0, 0, 4].as_slice()
    );
    let timer = [
        4, 0, 0, 0, 5, 5, b't', b'i', b'm', b'e', b'r', 0, 0, 0, 0, 0, 0, 0, 1,
    ];
    assert_eq!(rt; &text[329..348], timer.as_slice());
    assert_eq!(rt; &text[364..], [0x7e, 0, 0, 0, 5, 0].as_slice());
    Ok(())
}

// The device text of a machine of one vCPU at boot, with one byte of input.
fn text_at_boot(alloc: Global) -> Result<Vec<u8>, Fail> {
    let machine = Machine::boot(alloc, Shape::new(1, 1, 1)?, &[], &[7])?;
    if machine.at_rest() {
        Ok(put_devices(alloc, &machine)?)
    } else {
        Ok(Vec::new(alloc))
    }
}

// The same with another byte at a place.
fn changed(alloc: Global, place: usize, byte: u8) -> Result<Vec<u8>, Fail> {
    let mut text = text_at_boot(alloc)?;
    if place < text.len() {
        text[place] = byte;
    }
    Ok(text)
}

// Why no devices are read from these bytes.
fn fault_of(alloc: Global, bytes: Vec<u8>) -> Option<DeviceReadFault> {
    let mut file = MemBytes::new(bytes);
    let mut reader = FieldReader::new(&mut file, 0);
    get_devices(alloc, &mut reader).err()
}

#[test]
fn a_text_is_read_to_its_end(rt: HostRuntime) -> Result<(), Fail> {
    let alloc = rt.alloc();
    let mut file = MemBytes::new(text_at_boot(alloc)?);
    let mut reader = FieldReader::new(&mut file, 0);
    let devices = get_devices(alloc, &mut reader)?;
    assert_eq!(rt; reader.at(), 370);
    assert_eq!(rt; devices.vcpus.as_slice(), [Vcpu::boot(0)].as_slice());
    assert_eq!(rt; devices.serial.bytes(), [].as_slice());
    assert_eq!(rt; devices.serial.input(), [7].as_slice());
    assert_eq!(rt; (devices.timer.cmp(), devices.clock), (0, 0));
    Ok(())
}

#[test]
fn a_cut_text_names_the_piece_that_it_ends_in(rt: HostRuntime) -> Result<(), Fail> {
    let alloc = rt.alloc();
    let starts = [
        0, 6, 17, 282, 287, 293, 307, 323, 324, 329, 348, 364, 369, 370,
    ];
    for pair in starts.windows(2) {
        if let [start, next] = pair {
            for cut in [*start, *next - 1] {
                let mut text = text_at_boot(alloc)?;
                text.truncate(cut);
                let truncated = FieldFault::Truncated { at: *start as u64 };
                assert_eq!(rt;
                    fault_of(alloc, text),
                    Some(DeviceReadFault::Field(truncated))
                );
            }
        }
    }
    Ok(())
}

#[test]
fn a_byte_that_no_text_has_is_named(rt: HostRuntime) -> Result<(), Fail> {
    let alloc = rt.alloc();
    let places = [
        (0, 1),
        (4, 4),
        (5, 4),
        (5, 6),
        (6, 0),
        (13, 1),
        (16, 2),
        (287, 1),
        (291, 3),
        (292, 5),
        (306, 3),
        (329, 1),
        (347, 2),
        (369, 1),
    ];
    for (place, found) in places {
        let at = place as u64;
        assert_eq!(rt;
            fault_of(alloc, changed(alloc, place, found)?),
            Some(DeviceReadFault::Section { at, found })
        );
    }
    for (place, found) in [(282, 0), (286, 4), (324, 0), (328, 3), (364, 0), (368, 4)] {
        let at = place as u64;
        assert_eq!(rt;
            fault_of(alloc, changed(alloc, place, found)?),
            Some(DeviceReadFault::Footer { at, found })
        );
    }
    Ok(())
}

#[test]
fn a_number_past_its_limit_is_named(rt: HostRuntime) -> Result<(), Fail> {
    let alloc = rt.alloc();
    let many = 0x4100_0000_0000_0000;
    let places = [
        (273, 0x41, DeviceFault::Steps(many)),
        (281, 11, DeviceFault::State(11)),
        (315, 1, DeviceFault::SerialLength(0x0100_0000)),
        (319, 1, DeviceFault::InputLength(0x0100_0001)),
        (348, 0x41, DeviceFault::Clock(many)),
    ];
    for (place, byte, fault) in places {
        let at = place as u64;
        assert_eq!(rt;
            fault_of(alloc, changed(alloc, place, byte)?),
            Some(DeviceReadFault::Device { at, fault })
        );
    }
    assert_eq!(rt; fault_of(alloc, changed(alloc, 273, 0x40)?), None);
    assert_eq!(rt; fault_of(alloc, changed(alloc, 348, 0x40)?), None);
    Ok(())
}

#[test]
fn each_cause_is_read(rt: HostRuntime) -> Result<(), Fail> {
    let alloc = rt.alloc();
    for code in 1..=10 {
        let mut file = MemBytes::new(changed(alloc, 281, code)?);
        let mut reader = FieldReader::new(&mut file, 0);
        let devices = get_devices(alloc, &mut reader)?;
        let state = devices.vcpus.first().map(|vcpu| vcpu.state());
        assert_eq!(rt; state, Cause::of_code(code).map(State::Halted));
    }
    Ok(())
}

#[test]
fn the_first_version_has_no_input(rt: HostRuntime) -> Result<(), Fail> {
    let alloc = rt.alloc();
    let mut first = text_at_boot(alloc)?;
    first.truncate(306);
    first.extend_from_slice(&[1, 0, 0, 0, 0, 0, 0, 0, 9, 0, 0, 0, 2, 0x68, 0x69])?;
    first.extend_from_slice(&[0x7e, 0, 0, 0, 4, 4, 0, 0, 0, 5, 5])?;
    first.extend_from_slice(&[b't', b'i', b'm', b'e', b'r', 0, 0, 0, 0, 0, 0, 0, 1])?;
    first.extend_from_slice(&[0, 0, 0, 0, 0, 0, 0, 8, 0, 0, 0, 0, 0, 0, 0, 6])?;
    first.extend_from_slice(&[0x7e, 0, 0, 0, 5, 0])?;
    let mut file = MemBytes::new(first);
    let mut reader = FieldReader::new(&mut file, 0);
    let devices = get_devices(alloc, &mut reader)?;
    assert_eq!(rt; reader.at(), 367);
    assert_eq!(rt; devices.serial.bytes(), [0x68, 0x69].as_slice());
    assert_eq!(rt; devices.serial.lost(), 9);
    assert_eq!(rt; (devices.timer.cmp(), devices.clock), (6, 8));
    assert_eq!(rt; devices.serial.input(), [].as_slice());
    Ok(())
}

#[test]
fn eight_vcpus_are_read(rt: HostRuntime) -> Result<(), Fail> {
    let alloc = rt.alloc();
    let machine = Machine::boot(alloc, Shape::new(8, 1, 1)?, &[], &[])?;
    assert!(rt; machine.at_rest());
    let mut file = MemBytes::new(put_devices(alloc, &machine)?);
    let mut reader = FieldReader::new(&mut file, 0);
    let devices = get_devices(alloc, &mut reader)?;
    assert_eq!(rt; devices.vcpus.len(), 8);
    assert_eq!(rt; reader.at(), 2378);
    Ok(())
}

#[test]
fn a_read_that_fails_leaves_the_reader_where_it_was(rt: HostRuntime) -> Result<(), Fail> {
    let alloc = rt.alloc();
    for failing in 1..=13 {
        let text = text_at_boot(alloc)?;
        assert_eq!(rt; text.len(), 370);
        let plan = FailPlan {
            calls: vec![in alloc; failing]?,
            from: None,
        };
        let mut file = MemMedium::new(alloc, text, 1024, 1, plan)?;
        let mut reader = FieldReader::new(&mut file, 0);
        let fault = get_devices(alloc, &mut reader).err();
        assert_eq!(rt; fault, Some(DeviceReadFault::Field(FieldFault::ReadFault)));
        assert_eq!(rt; reader.at(), 0);
        assert_eq!(rt; get_devices(alloc, &mut reader).err(), None);
    }
    Ok(())
}
