use crate::guests::{HALTS, RACES};
use order_log::OrderRefusal;
use std::test::Fail;
use test_lines::{Fails, LINE, Line, difference};
use vm_cli::Fault;

/// The line of each replay.
const WORDS: [&str; 5] = ["replay", "image=a", "in=b", "vcpus=2", "pages=2"];

const SECOND_CAME_LAST: &str = "clock 6
cpu 0 running pc 0000000080000008 steps 2
x5 0000000080001000
cpu 1 running pc 0000000080000008 steps 2
x5 0000000080001000
x10 0000000000000001
serial 0 lost 0
timer 0000000000000000
ram pages 2 nonzero 2 sum 00a2b02300001298
";

const FIRST_CAME_LAST: &str = "clock 6
cpu 0 running pc 0000000080000008 steps 2
x5 0000000080001000
cpu 1 running pc 0000000080000008 steps 2
x5 0000000080001000
x10 0000000000000001
serial 0 lost 0
timer 0000000000000000
ram pages 2 nonzero 1 sum 00a2b02300001297
";

/// The store of the second vCPU is still to come.
const FIRST_CAME_ALONE: &str = "clock 5
cpu 0 running pc 0000000080000008 steps 2
x5 0000000080001000
cpu 1 running pc 0000000080000004 steps 1
x5 0000000080001000
x10 0000000000000001
serial 0 lost 0
timer 0000000000000000
ram pages 2 nonzero 1 sum 00a2b02300001297
";

/// An order file, its members, and what its replay prints.
#[rattlefmt::skip]
static ORDERS: [(&[u8], &[u8], &str); 3] = [
    (b"RVOR\0\0\0\x01\0\0\0\x02\0\0\0\0\0\0\0\x06\x00\x11\x10", &[0, 0, 1, 1, 0, 1], SECOND_CAME_LAST),
    (b"RVOR\0\0\0\x01\0\0\0\x02\0\0\0\0\0\0\0\x06\x00\x11\x01", &[0, 0, 1, 1, 1, 0], FIRST_CAME_LAST),
    (b"RVOR\0\0\0\x01\0\0\0\x02\0\0\0\0\0\0\0\x05\x00\x11\x00", &[0, 0, 1, 1, 0], FIRST_CAME_ALONE),
];

#[test]
fn the_low_half_of_a_byte_makes_the_earlier_event(rt: HostRuntime) -> Result<(), Fail> {
    for &(input, first, printed) in &ORDERS {
        let line = Line {
            words: &WORDS,
            image: &RACES,
            input,
            output_fails: Fails::From(1),
            printed,
            first,
            ..LINE
        };
        assert_eq!(rt; difference(rt.alloc(), &line)?, None, "{printed}");
    }
    Ok(())
}

/// An order file, why it is refused, and what is printed.
#[rattlefmt::skip]
static REFUSED: [(&[u8], OrderRefusal, &str); 10] = [
    (b"", OrderRefusal::Truncated { at: 0 }, "fault 12 order truncated 0\n"),
    (b"QEVM\0\0\0\x03", OrderRefusal::Magic(0x5145_564d), "fault 12 order magic 1363498573\n"),
    (b"RVOR\0\0\0\x02", OrderRefusal::Version(2), "fault 12 order version 2\n"),
    (b"RVOR\0\0\0\x01\0\0\0\x01\0\0\0\0\0\0\0\x02\x00", OrderRefusal::Vcpus(1), "fault 12 order vcpus 1\n"),
    (b"RVOR\0\0\0\x01\0\0\0\x02\0\0\0\0\0\xf4\x24\x01", OrderRefusal::Count(16_000_001), "fault 12 order count 16000001\n"),
    (b"RVOR\0\0\0\x01\0\0\0\x02\0\0\0\0\0\0\0\x07\x00\x11\x10", OrderRefusal::Truncated { at: 20 }, "fault 12 order truncated 20\n"),
    (b"RVOR\0\0\0\x01\0\0\0\x02\0\0\0\0\0\0\0\x06\x00\x11\x20", OrderRefusal::Member { at: 22, v: 2 }, "fault 12 order member 22 2\n"),
    (b"RVOR\0\0\0\x01\0\0\0\x02\0\0\0\0\0\0\0\x05\x00\x11\x10", OrderRefusal::Pad(1), "fault 12 order pad 1\n"),
    (b"RVOR\0\0\0\x01\0\0\0\x02\0\0\0\0\0\0\0\x04\x00\x11\x10", OrderRefusal::Trailing { at: 22 }, "fault 12 order trailing 22\n"),
    (b"RVOR\0\0\0\x01\0\0\0\x02\0\0\0\0\0\0\0\x02\x00", OrderRefusal::Halted { place: 1 }, "fault 12 order halted 1\n"),
];

#[test]
fn an_order_that_is_refused_is_told_by_its_line_alone(rt: HostRuntime) -> Result<(), Fail> {
    for &(input, refusal, printed) in &REFUSED {
        let line = Line {
            words: &WORDS,
            image: &HALTS,
            input,
            output_fails: Fails::From(1),
            status: 12,
            fault: Some(Fault::OrderRefused(refusal)),
            printed,
            ..LINE
        };
        assert_eq!(rt; difference(rt.alloc(), &line)?, None, "{printed}");
    }
    Ok(())
}
