use atomic_table::TableRule;
use flat_machine::Machine;
use page_cell::Cell;
use std::marker::Model;
use std::snapshot::Snapshot;

/// What is fixed for a whole run: the machine that the bus started at, the length of the phase, and whether pages are
/// protected.
#[derive(Drop)]
pub struct About {
    pub instant: Snapshot<Machine>,
    pub run: u32,
    pub protect: bool,
}

/// What a pass shows. No value of it is made.
pub struct PassView;

impl Model for PassView {
    ghost use Rattle.bus_rule.specs.Plays.{spent_pass};
    ghost use Rattle.bus_rule.specs.Views.{PassData};

    ghost Value = { PassData };

    ghost view = { λ _. spent_pass };
}

/// The rule of the bus.
pub struct BusRule;

impl TableRule<Cell, PassView, About> for BusRule {
    ghost use Rattle.bus_rule.specs.Kept.{Kept};
    ghost use Rattle.bus_rule.specs.Plays.{first_pass};

    ghost holds = { λ key. Kept key.instant.value key.run key.protect };

    ghost first = { λ key. first_pass key.instant.value key.run key.protect };
}
