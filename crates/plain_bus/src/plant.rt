ghost use Rattle.std.specs.Prelude.{◌≡◌, ◌<◌, ℕ, Some, List};
ghost use Rattle.ram_block.specs.Shape.{total_pages_of};
ghost use Rattle.page_cell.specs.Core.{PageTurn, PickTurn, core_turn, is_protected};
ghost use Rattle.page_cell.specs.Plant.{LeavesPick, LeavesTake};
ghost use Rattle.flat_machine.specs.Machine.{page_of};
ghost use Rattle.plain_bus.specs.Bus.{IsBus, StandsFor, after_pick, after_take, core_of, pick_of, recorded_after};
ghost use Rattle.plain_bus.specs.Cells.{buffer_after, taken_where};
ghost use Rattle.plain_bus.specs.Plant.{plant_state, rest_of};
ghost use Rattle.plain_bus.specs.PlantLaws.{bus_flags, one_list};

use crate::PlainBus;
use page_cell::{PageBuf, Pick, Plant, Taken};
use std::marker::Model;

/// What of a bus neither a pick nor a take changes, for clauses alone: there is no value.
pub struct BusRest;

impl Model for BusRest {
    ghost use Rattle.plain_bus.specs.Plant.{RestData, no_rest};

    ghost Value = { RestData };

    ghost view = { λ _. no_rest };
}

impl Plant for PlainBus {
    type Rest = BusRest;

    ghost total = { λ d. total_pages_of d.machine.shape };

    ghost writable = { λ d. d.writable };

    ghost picked = { λ d. d.picked };

    ghost busy = { λ d. 0 };

    ghost rest = { rest_of };

    ghost stands = { StandsFor };

    ghost fits = { IsBus };

    ghost picks = { λ d. d.picks };

    ghost last = { λ d. d.last };

    ghost queue = { λ d. Some d.queue };

    ghost flags = { bus_flags };

    ghost one_list = { one_list };

    #[tactic(auto, using(crate::proofs::Plants::pick_core))]
    fn pick(&mut self) -> Pick
        requires { IsBus self.old }
        ensures leaves { LeavesPick (plant_state self.old) (plant_state self.new) result }

        ensures answer { result ≡ pick_of self.old.queue }
        ensures after { self.new ≡ after_pick self.old }
        ensures core { (recorded : List (ℕ × List ℕ)) → core_of self.new recorded ≡ core_turn (core_of self.old recorded) PickTurn }
    {
        let answer = match self.faults.pop() {
            Some(page) => {
                self.picked[page as usize] = true;
                Pick::Fault(page)
            }
            None => Pick::Empty,
        };
        self.picks = self.picks.saturating_add(1);
        self.last = Some(answer);
        answer
    }

    fn take(&mut self, page: u32, into: &mut PageBuf) -> Taken
        requires fits { IsBus self.old }
        requires page { page < total_pages_of self.old.machine.shape }
        ensures leaves { LeavesTake (plant_state self.old) (plant_state self.new) page into.old into.new result }

        ensures answer { result ≡ taken_where (is_protected self.old.writable page) }
        ensures after { self.new ≡ after_take self.old page }
        ensures buffer { into.new ≡ buffer_after (page_of self.old.machine page) into.old (is_protected self.old.writable page) }
        ensures core { (recorded : List (ℕ × List ℕ)) → core_of self.new (recorded_after recorded page into.new result) ≡ core_turn (core_of self.old recorded) (PageTurn page) }
    {
        self.cells.take(page, into)
    }
}
