use flat_machine::{Machine, Order, Stepped};
use ram_block::PageBuf;
use serial_timer::Serial;

/// How far a test runs a machine.
const MOST_EVENTS: u64 = 1 << 62;

// The event of vCPU k, if it has one.
fn stepped(machine: &mut Machine, k: u32) -> bool {
    if k >= machine.shape().vcpus()
        || machine.clock() >= MOST_EVENTS
        || machine.vcpu(k).steps() >= MOST_EVENTS
    {
        return false;
    }
    machine.step(k) == Stepped::Event
}

/// Whether the machine has an event of the vCPU at each place of the order, which it makes.
pub(crate) fn replayed(machine: &mut Machine, order: &Order) -> bool {
    for i in 0..order.count() {
        let Some(k) = order.get(i) else {
            return false;
        };
        if !stepped(machine, u32::from(k)) {
            return false;
        }
    }
    true
}

fn have_same_bytes(pages: &[PageBuf], others: &[PageBuf]) -> bool {
    pages.len() == others.len()
        && pages
            .iter()
            .zip(others)
            .all(|(page, other)| page.bytes() == other.bytes())
}

fn is_same_serial(serial: &Serial, other: &Serial) -> bool {
    serial.bytes() == other.bytes()
        && serial.lost() == other.lost()
        && serial.input() == other.input()
}

fn have_same_vcpus(machine: &Machine, other: &Machine) -> bool {
    let vcpus = machine.shape().vcpus();
    if other.shape().vcpus() != vcpus {
        return false;
    }
    (0..vcpus).all(|k| machine.vcpu(k) == other.vcpu(k))
}

/// Whether two machines are the same.
pub(crate) fn is_same(machine: &Machine, other: &Machine) -> bool {
    machine.shape() == other.shape()
        && machine.clock() == other.clock()
        && machine.timer() == other.timer()
        && is_same_serial(machine.serial(), other.serial())
        && have_same_vcpus(machine, other)
        && have_same_bytes(machine.pages(), other.pages())
}

/// Whether each vCPU has made so many steps.
pub(crate) fn have_made(machine: &Machine, steps: u64) -> bool {
    (0..machine.shape().vcpus()).all(|k| machine.vcpu(k).steps() == steps)
}
