ghost use Rattle.std.specs.Prelude.{◌≡◌};
ghost use Rattle.page_bus.specs.Passes.{IsVcpuPass, task_of};

use crate::traced_vcpu::TracedVcpu;
use bus_rule::PassSeat;
use std::marker::Model;

/// The pass of a vCPU, by which it steps on its bus. In its caller's hand it holds no cell.
#[derive(Drop)]
pub struct VcpuPass {
    pub(crate) seat: PassSeat,
    pub(crate) traced: TracedVcpu,
    pub(crate) busy: u64,
}

impl Model for VcpuPass {
    ghost use Rattle.page_bus.specs.Passes.{VcpuPassData};

    ghost Value = { VcpuPassData };

    ghost use Rattle.page_bus.specs.Inside.{IsVcpuInside, vcpu_pass_of};

    ghost view = { vcpu_pass_of };

    ghost invariant = { IsVcpuInside };
}

impl VcpuPass {
    /// How often the vCPU was stopped, or the greatest u64 where it was more often.
    pub fn blocked(&self) -> u64
        ensures value { result ≡ (task_of self.now.view).blocked }
        ensures limits { IsVcpuPass self.now }
    {
        self.traced.blocked()
    }

    /// How often it found a cell held, or the greatest u64 where it was more often.
    pub fn busy(&self) -> u64
        ensures value { result ≡ self.now.view.busy }
        ensures limits { IsVcpuPass self.now }
    {
        self.busy
    }
}
