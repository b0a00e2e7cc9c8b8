ghost use Rattle.std.specs.Prelude.{◌≡◌, ◌≤◌, ◌<◌, ◌++◌, [], All, length, map, vec_capacity};
ghost use Rattle.ram_block.specs.declared.shape.TheConstants.{MAX_VCPUS};
ghost use Rattle.bus_rule.specs.Views.{Saving};
ghost use Rattle.page_bus.specs.Joining.{joined_with, task_of_pass, traced_of_pass};
ghost use Rattle.page_bus.specs.Passes.{book_of};

use crate::VcpuPass;
use crate::traced_vcpu::TracedVcpu;
use bus_rule::{Bus, PassSeat};

/// Joins each pass to the saver's, and keeps its vCPU with the numbers of its events.
pub(crate) fn join_all(
    bus: &Bus,
    seat: &mut PassSeat,
    passes: Vec<VcpuPass>,
    traced: &mut Vec<TracedVcpu>,
)
    requires table { seat.old.table_id ≡ bus.now.table.shared.table_id }
    requires tables { All (λ p. p.table ≡ bus.now.table.shared.table_id) passes.items }
    requires role { seat.old.me.0.role ≡ Saving (book_of seat.old.me.0) }
    requires empty { traced.old.items ≡ [] }
    requires room { length passes.items ≤ vec_capacity traced.old }
    ensures table { seat.new.table_id ≡ seat.old.table_id }
    ensures joined { seat.new.me ≡ (joined_with seat.old.me.0 (map task_of_pass passes.items), seat.old.me.1) }
    ensures traced { traced.new.items ≡ map traced_of_pass passes.items }
    ensures below { All (λ d. d.who < MAX_VCPUS) traced.new.items }
{
    let mut passes = passes;
    passes.reverse();
    while let Some(pass) = passes.pop() {
        let VcpuPass {
            seat: own,
            traced: one,
            ..
        } = pass;
        let _limits = one.number();
        bus.join(seat, own);
        traced.push_reserved(one);
    }
}
