ghost use Rattle.std.specs.Prelude.{◌≡◌, ◌-◌, ◌^◌, min};
ghost use Rattle.std.specs.List.{sum_by};
ghost use Rattle.page_bus.specs.Passes.{task_of};

use page_bus::VcpuPass;

/// How often a vCPU was stopped, over all of them, or the greatest u64 where it was more often.
pub fn blocked_of(passes: &Vec<VcpuPass>) -> u64
    ensures { result ≡ min (sum_by (λ p. (task_of p.view).blocked) passes.now.items) (2 ^ 64 - 1) }
{
    let mut blocked = 0u64;
    for pass in passes {
        blocked = blocked.saturating_add(pass.blocked());
    }
    blocked
}
