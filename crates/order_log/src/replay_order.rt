ghost use Rattle.std.specs.Prelude.{◌≡◌, IfNone, IfOk, IfErr, IfSome, None, Ok, OnErr, Some};
ghost use Rattle.flat_machine.specs.Machine.{IsMachine, MachineData, Rest};
ghost use Rattle.flat_machine.specs.Run.{run};
ghost use Rattle.order_log.specs.Replay.{Replays, StopsAt, halted_place};
ghost use Rattle.order_log.specs.Text.{IsOrder};

use crate::members::member;
use flat_machine::{Machine, Order, Stepped};

/// The machine after the events of an order, or else the machine before the first event that can't be made, of a vCPU
/// that is halted, and its place in the order, from 0. It takes no memory.
pub fn replay(machine: Machine, order: &Order) -> Result<Machine, (Machine, u64)>
    requires rest { Rest machine }
    requires order { IsOrder machine.shape.vcpus order.now.members }
    ensures replays { Replays machine order.now.members result }
    ensures ran { (last : MachineData) → run machine order.now.members ≡ Some last → result ≡ Ok last }
    ensures stopped { OnErr result (run machine order.now.members ≡ None) }
    ensures all_made { IfOk result (λ _. halted_place machine order.now.members ≡ None) }
    ensures place { IfErr result (λ stopped. halted_place machine order.now.members ≡ Some stopped.1) }
    ensures limits { IfOk result IsMachine }
    ensures stopped_limits { IfErr result (λ stopped. IsMachine stopped.0) }
{
    let mut machine = machine;
    match run_order(&mut machine, order) {
        None => Ok(machine),
        Some(place) => Err((machine, place)),
    }
}

// Makes the events of an order, as far as no vCPU is halted at its turn, and answers the place of the first that is.
fn run_order(machine: &mut Machine, order: &Order) -> Option<u64>
    requires rest { Rest machine.old }
    requires order { IsOrder machine.old.shape.vcpus order.now.members }
    ensures ran { IfNone result (run machine.old order.now.members ≡ Some machine.new) }
    ensures stopped { IfSome result (λ place. StopsAt machine.old order.now.members machine.new place) }
    ensures none { IfSome result (λ place. run machine.old order.now.members ≡ None) }
    ensures place { IfSome result (λ place. halted_place machine.old order.now.members ≡ Some place) }
    ensures limits { IsMachine machine.new }
{
    let _limits = machine.clock();
    for place in 0..order.count() {
        if let Stepped::Halted = machine.step(u32::from(member(order, place))) {
            return Some(place as u64);
        }
    }
    None
}
