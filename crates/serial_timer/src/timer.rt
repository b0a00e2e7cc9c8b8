ghost use Rattle.std.specs.Prelude.{◌≡◌};

use ram_block::TimerReg;
use std::marker::Model;

/// The timer, which keeps its compare value alone: the time is told at each read.
#[derive(Clone, Copy, Debug, PartialEq, Eq)]
pub struct Timer {
    cmp: u64,
}

impl Model for Timer {
    ghost use Rattle.std.specs.Prelude.{ℕ};

    ghost Value = { ℕ };

    ghost view = { λ t. t.cmp };

    ghost inverse = { λ n. record { cmp = n } };
}

impl Timer {
    ghost use Rattle.serial_timer.specs.Timer.{timer_reads};

    /// A timer with this compare value.
    pub fn of(cmp: u64) -> Timer
        ensures { result ≡ cmp }
    {
        Timer { cmp }
    }

    /// A load of a register, where `time` is the number of events before this one.
    #[tactic(auto, unfolding(crate::specs::Timer::timer_reads))]
    pub fn read(&self, reg: TimerReg, time: u64) -> u64
        ensures { result ≡ timer_reads reg self.now time }
    {
        match reg {
            TimerReg::Time => time,
            TimerReg::Cmp => self.cmp,
            TimerReg::Due => u64::from(time >= self.cmp),
        }
    }

    /// A store to CMP.
    pub fn write(&mut self, value: u64)
        ensures { self.new ≡ value }
    {
        self.cmp = value;
    }

    /// The compare value.
    pub fn cmp(&self) -> u64
        ensures { result ≡ self.now }
    {
        self.cmp
    }
}
