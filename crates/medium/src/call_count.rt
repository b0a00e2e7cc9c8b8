ghost use Rattle.std.specs.Prelude.{◌≡◌, ◌↔◌, ◌≤◌, IsTrue};

use crate::FailPlan;
use std::marker::Model;

/// The calls that were made so far and those that failed, beside the plan for them.
#[derive(Drop)]
pub(crate) struct CallCount {
    plan: FailPlan,
    made: u64,
    faults: u64,
}

impl Model for CallCount {
    ghost use Rattle.medium.specs.Memory.{CallCount as CallData};

    ghost Value = { CallData };

    ghost view = { λ c. record { fails = c.plan.calls.items; fails_from = c.plan.from; made = c.made; faults = c.faults } };
}

impl CallCount {
    ghost use Rattle.medium.specs.Memory.{IsPlanned, passed, failed};

    /// Before the first call.
    pub(crate) fn new(plan: FailPlan) -> CallCount
        ensures { result ≡ record { fails = plan.calls.items; fails_from = plan.from; made = 0; faults = 0 } }
    {
        CallCount {
            plan,
            made: 0,
            faults: 0,
        }
    }

    /// Whether the call that comes next fails by plan.
    pub(crate) fn is_planned(&self) -> bool
        ensures { IsTrue result ↔ IsPlanned self.now }
    {
        let call = self.made.saturating_add(1);
        self.plan.calls.contains(&call) || self.plan.from.is_some_and(|from| from <= call)
    }

    /// Counts a call that goes well.
    pub(crate) fn pass(&mut self)
        ensures { self.new ≡ passed self.old }
    {
        self.made = self.made.saturating_add(1);
    }

    /// Counts a call that fails.
    pub(crate) fn fail(&mut self)
        ensures failed { self.new ≡ failed self.old }
        ensures rises { self.old.faults ≤ self.new.faults }
    {
        self.made = self.made.saturating_add(1);
        self.faults = self.faults.saturating_add(1);
    }
}
