ghost use Rattle.std.specs.Prelude.{◌≡◌, List, length, vec_len};
ghost use Rattle.rv64i_step.specs.Vcpu.{VcpuData};
ghost use Rattle.flat_machine.specs.Machine.{IsMachine};
ghost use Rattle.page_bus.specs.Closing.{AreAllOf, Closes};
ghost use Rattle.page_bus.specs.Merge.{FitsVcpus};

use crate::bare_machine::{BareMachine, out_of_cells};
use crate::join::join_all;
use crate::merge::merge;
use crate::traced_vcpu::TracedVcpu;
use crate::{Bus, SaverPass, VcpuPass};
use plain_bus::Closed;
use rv64i_step::Vcpu;

impl Bus {
    /// The machine and the order of the events since the start, when all passes are back.
    pub fn close(self, passes: Vec<VcpuPass>, saver: SaverPass) -> Closed
        requires { AreAllOf self passes.items saver }
        ensures closes { Closes self passes.items saver result.machine result.order.members }
        ensures limits { IsMachine result.machine }
    {
        let Bus {
            rule,
            shape,
            clock,
            mut vcpus,
            ram,
            mut cells,
            mut traced,
            mut order,
        } = self;
        let SaverPass { mut seat, .. } = saver;
        join_all(&rule, &mut seat, passes, &mut traced);
        rule.close(seat, &mut cells);
        merge(&traced, &mut order);
        place_vcpus(&traced, &mut vcpus);
        let clock = clock + order.count() as u64;
        let bare = BareMachine {
            shape,
            vcpus,
            clock,
            ram,
        };
        Closed {
            machine: out_of_cells(bare, cells),
            order,
        }
    }
}

// Puts each vCPU into its place.
fn place_vcpus(traced: &Vec<TracedVcpu>, vcpus: &mut Vec<Vcpu>)
    requires { (fitting : List VcpuData) × (length fitting ≡ vec_len vcpus.old) × FitsVcpus fitting traced.now.items }
    ensures { (fitting : List VcpuData) → length fitting ≡ vec_len vcpus.old → FitsVcpus fitting traced.now.items → vcpus.new.items ≡ fitting }
{
    for one in traced {
        vcpus[one.who as usize] = one.vcpu;
    }
}
