ghost use Rattle.std.specs.Prelude.{◌≡◌, ◌<◌, ◌^◌, ◌↔◌, ℕ, length, None, IsSome, IsNone, IsTrue, All};

use crate::{Access, State};
use ram_block::RAM_BASE;
use std::marker::Model;

/// A virtual processor: its registers, its pc, how many instructions it has finished, and whether it runs.
#[derive(Clone, Copy, Debug, PartialEq, Eq)]
pub struct Vcpu {
    // Apart from the steps: where both are in one vector register, each event waits until the earlier ones are written.
    pub(crate) pc: u64,
    // x1 to x31.
    pub(crate) regs: [u64; 31],
    pub(crate) steps: u64,
    pub(crate) state: State,
    pub(crate) pending: Option<Access>,
}

impl Model for Vcpu {
    ghost use Rattle.rv64i_step.specs.Vcpu.{VcpuData, IsVcpu};

    ghost Value = { VcpuData };

    ghost view = { λ v. record { regs = v.regs; pc = v.pc; steps = v.steps; state = v.state; pending = v.pending } };

    ghost invariant = { λ v. IsVcpu (record { regs = v.regs; pc = v.pc; steps = v.steps; state = v.state; pending = v.pending }) };

    ghost inverse = { λ d. record { regs = d.regs; pc = d.pc; steps = d.steps; state = d.state; pending = d.pending } };
}

impl Vcpu {
    ghost use Rattle.rv64i_step.specs.Vcpu.{IsVcpu, boot_vcpu, reg_of};

    /// A vCPU at boot: its number in x10, its pc at the start of RAM, and zeros else.
    pub fn boot(number: u32) -> Vcpu
        requires { number < 8 }
        ensures boot { result ≡ boot_vcpu number }
        ensures limits { IsVcpu result }
    {
        let mut regs = [0; 31];
        regs[9] = u64::from(number);
        Vcpu::of(regs, RAM_BASE, 0, State::Running)
    }

    /// A vCPU with these registers, x1 to x31. Nothing is pending.
    pub fn of(regs: [u64; 31], pc: u64, steps: u64, state: State) -> Vcpu
        ensures parts { result ≡ record { regs = regs; pc = pc; steps = steps; state = state; pending = None } }
        ensures limits { IsVcpu result }
    {
        let _known = all_of(&regs);
        Vcpu {
            regs,
            pc,
            steps,
            state,
            pending: None,
        }
    }

    /// The value of register x0 to x31.
    #[inline(always)]
    pub fn reg(&self, i: u32) -> u64
        requires { i < 32 }
        ensures value { result ≡ reg_of self.now i }
        ensures limits { IsVcpu self.now }
    {
        let regs = &self.regs;
        if i == 0 { 0 } else { regs[i as usize - 1] }
    }

    /// The guest-physical address of the next instruction, or of the one that halted.
    pub fn pc(&self) -> u64
        ensures value { result ≡ self.now.pc }
        ensures limits { IsVcpu self.now }
    {
        self.pc
    }

    /// How many instructions it has finished.
    #[inline(always)]
    pub fn steps(&self) -> u64
        ensures value { result ≡ self.now.steps }
        ensures limits { IsVcpu self.now }
    {
        self.steps
    }

    #[inline(always)]
    pub fn state(&self) -> State
        ensures value { result ≡ self.now.state }
        ensures limits { IsVcpu self.now }
    {
        self.state
    }

    /// Whether a fetched instruction has still to make its access.
    pub fn pending(&self) -> bool
        ensures value { IsTrue result ↔ IsSome self.now.pending }
        ensures limits { IsVcpu self.now }
    {
        self.pending.is_some()
    }
}

// What the types of an array and of a slice say of it.
fn all_of(regs: &[u64; 31]) -> &[u64]
    ensures regs { result.now ≡ regs.now }
    ensures count { length regs.now ≡ 31 }
    ensures fits { All (λ r. r < 2 ^ 64) regs.now }
{
    fitting(regs)
}

fn fitting(regs: &[u64]) -> &[u64]
    ensures regs { result.now ≡ regs.now }
    ensures fits { All (λ r. r < 2 ^ 64) regs.now }
{
    regs
}
