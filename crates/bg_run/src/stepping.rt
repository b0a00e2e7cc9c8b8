// The vCPUs' workers.
ghost use Rattle.std.specs.Prelude.{◌≡◌, ◌<◌, ◌≤◌, All, length};
ghost use Rattle.ram_block.specs.declared.shape.TheConstants.{MAX_VCPUS};
ghost use Rattle.bg_run.specs.Workers.{AreStepped, IsStepped};

use page_bus::{Bus, VcpuPass};
use plain_bus::StepAnswer;
use ram_block::{Gate, MAX_VCPUS};
use std::sync::Wait;
use std::thread;
use std::thread::{Threads, yield_now};

/// The workers of all vCPUs, each on a thread of its own, until the phase of each has ended.
pub fn step_all<R: Threads + Wait + Sync, G: Gate>(
    rt: &R,
    bus: &Bus,
    passes: &mut Vec<VcpuPass>,
    gate: &G,
)
    requires tables { All (λ p. p.table ≡ bus.now.table) passes.old.items }
    requires count { length passes.old.items ≤ MAX_VCPUS }
    ensures { AreStepped passes.old.items passes.new.items }
{
    thread::for_each_mut(
        rt,
        passes,
        MAX_VCPUS as usize,
        &|k, pass: &mut VcpuPass|
            requires { (pass.old.table ≡ bus.now.table) × (k < MAX_VCPUS) }
            ensures { IsStepped pass.old pass.new }
        { step(rt, bus, pass, k as u32, gate) },
    );
}

// The worker of vCPU k: its turns until its phase has ended. One that can't go on lets another thread run.
fn step<R: Wait, G: Gate>(rt: &R, bus: &Bus, pass: &mut VcpuPass, k: u32, gate: &G)
    requires { pass.old.table ≡ bus.now.table }
    ensures { IsStepped pass.old pass.new }
{
    for _ in rt.forever() {
        match bus.try_step(pass) {
            StepAnswer::Done => gate.done(k),
            StepAnswer::Stopped(_) | StepAnswer::Busy(_) => yield_now(),
            StepAnswer::Idle => return,
        }
    }
    unreachable!()
}
