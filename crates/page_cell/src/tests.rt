use super::*;
use ram_block::{PAGE, Place, SerialReg, TimerReg, Width};
use rv64i_decode::AmoOp;
use rv64i_step::Request;
use serial_timer::{Serial, Timer};
use std::alloc::Global;
use std::test::Fail;
use wp_fault::FaultQueue;

const PLACE: Place = Place::Ram { page: 3, off: 8 };

const FETCH: Request = Request::Fetch { page: 3, off: 8 };

const LOAD: Request = Request::Load {
    place: PLACE,
    width: Width::Two,
};

const STORE: Request = Request::Store {
    place: PLACE,
    width: Width::Four,
    value: 0x0403_0201,
};

const ADD: Request = Request::Amo {
    place: PLACE,
    width: Width::Eight,
    op: AmoOp::Add,
    value: 0xff,
};

fn page(alloc: Global, phase: Phase) -> Result<Cell, Fail> {
    Ok(Cell::Page {
        bytes: PageBuf::new(alloc)?,
        phase,
    })
}

#[test]
fn a_protected_page_stops_stores_and_amos_alone(rt: HostRuntime) -> Result<(), Fail> {
    let alloc = rt.alloc();
    let protected = page(alloc, Phase::Protected)?;
    let writable = page(alloc, Phase::Writable)?;
    for (request, stops) in [
        (Request::Nothing, false),
        (FETCH, false),
        (LOAD, false),
        (STORE, true),
        (ADD, true),
    ] {
        assert_eq!(rt; protected.stops(&request), stops);
        assert!(rt; !writable.stops(&request));
    }
    Ok(())
}

#[test]
fn devices_and_the_queue_stop_nothing(rt: HostRuntime) -> Result<(), Fail> {
    let alloc = rt.alloc();
    let serial = Cell::Serial(Serial::new(alloc, &[])?);
    let timer = Cell::Timer(Timer::of(0));
    let faults = Cell::Faults(FaultQueue::new(alloc, 4)?);
    for cell in [&serial, &timer, &faults] {
        assert!(rt; !cell.stops(&STORE));
        assert!(rt; !cell.stops(&ADD));
    }
    Ok(())
}

#[test]
#[tactic(auto, unfolding(crate::specs::Cell::cell_after))]
fn a_page_gives_what_stands_at_the_place(rt: HostRuntime) -> Result<(), Fail> {
    let mut cell = Cell::Page {
        bytes: PageBuf::new(rt.alloc())?,
        phase: Phase::Writable,
    };
    assert_eq!(rt; cell.apply(&STORE, 7), 0);
    assert_eq!(rt; cell.apply(&ADD, 7), 0x0403_0201);
    assert_eq!(rt; cell.apply(&LOAD, 7), 0x0300);
    assert_eq!(rt; cell.apply(&FETCH, 7), 0x0403_0300);
    Ok(())
}

#[test]
#[tactic(auto, unfolding(crate::specs::Cell::cell_after))]
fn devices_give_their_registers(rt: HostRuntime) -> Result<(), Fail> {
    let mut serial = Cell::Serial(Serial::new(rt.alloc(), b"A")?);
    let read = Request::Load {
        place: Place::Serial(SerialReg::Rx),
        width: Width::One,
    };
    assert_eq!(rt; serial.apply(&read, 7), 0x41);
    assert_eq!(rt; serial.apply(&read, 7), 0);
    let mut timer = Cell::Timer(Timer::of(8));
    let read = Request::Load {
        place: Place::Timer(TimerReg::Time),
        width: Width::Eight,
    };
    assert_eq!(rt; timer.apply(&read, 7), 7);
    Ok(())
}

#[test]
fn a_page_is_writable_once_it_is_copied_out(rt: HostRuntime) -> Result<(), Fail> {
    let alloc = rt.alloc();
    let mut bytes = PageBuf::new(alloc)?;
    bytes.bytes_mut()[PAGE - 1] = 0x51;
    let mut cell = Cell::Page {
        bytes,
        phase: Phase::Protected,
    };
    let mut into = PageBuf::new(alloc)?;
    cell.release(&mut into);
    assert_eq!(rt; into.bytes()[PAGE - 1], 0x51);
    assert!(rt; !cell.stops(&STORE));
    assert_eq!(rt; cell.apply(&STORE, 0), 0);
    Ok(())
}
