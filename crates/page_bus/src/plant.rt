ghost use Rattle.std.specs.Prelude.{◌≡◌, ◌<◌, None};
ghost use Rattle.page_cell.specs.Plant.{LeavesPick, LeavesTake};
ghost use Rattle.page_bus.specs.Passes.{book_of};
ghost use Rattle.page_bus.specs.Plant.{IsPassOf, StandsFor, end_state, rest_of};
ghost use Rattle.page_bus.specs.PlantLaws.{end_flags, end_one_list};
ghost use Rattle.page_bus.specs.Saves.{LeavesPickAs, LeavesTakeAs, pages_of_book};

use crate::{Bus, SaverPass};
use page_cell::{PageBuf, Pick, Plant, Taken};
use std::marker::Model;

/// The bus as the saver sees it, with its pass.
pub struct SaverEnd<'a> {
    pub bus: &'a Bus,
    pub pass: &'a mut SaverPass,
}

/// What of a bus and the saver's pass neither a pick nor a take changes, for clauses alone: there is no value.
pub struct EndRest;

impl Model for EndRest {
    ghost use Rattle.page_bus.specs.Plant.{EndData, no_rest};

    ghost Value = { EndData };

    ghost view = { λ _. no_rest };
}

impl Plant for SaverEnd<'_> {
    type Rest = EndRest;

    ghost total = { λ s. pages_of_book (book_of s.pass.now.view) };

    ghost writable = { λ s. (book_of s.pass.now.view).writable };

    ghost picked = { λ s. (book_of s.pass.now.view).picked };

    ghost busy = { λ s. s.pass.now.view.busy };

    ghost rest = { λ s. rest_of s.bus.now s.pass.now };

    ghost stands = { λ s. StandsFor s.pass.now };

    ghost fits = { λ s. IsPassOf s.bus.now s.pass.now };

    ghost picks = { λ s. s.pass.now.picks };

    ghost last = { λ s. s.pass.now.last };

    ghost queue = { λ s. None };

    ghost flags = { λ s. end_flags s.bus.now s.pass.now };

    ghost one_list = { λ s. end_one_list s.bus.now s.pass.now };

    fn pick(&mut self) -> Pick
        requires { IsPassOf self.old.bus.now self.old.pass.now }
        ensures leaves { LeavesPick (end_state self.old.bus.now self.old.pass.now) (end_state self.new.bus.now self.new.pass.now) result }

        ensures as_pass { LeavesPickAs self.old.pass.now result self.new.pass.now }
        ensures bus { self.new.bus.now ≡ self.old.bus.now }
    {
        self.bus.pick_as(self.pass)
    }

    fn take(&mut self, page: u32, into: &mut PageBuf) -> Taken
        requires fits { IsPassOf self.old.bus.now self.old.pass.now }
        requires page { page < pages_of_book (book_of self.old.pass.now.view) }
        ensures leaves { LeavesTake (end_state self.old.bus.now self.old.pass.now) (end_state self.new.bus.now self.new.pass.now) page into.old into.new result }

        ensures as_pass { LeavesTakeAs self.old.pass.now page into.old result into.new self.new.pass.now }
        ensures bus { self.new.bus.now ≡ self.old.bus.now }
    {
        self.bus.take_as(self.pass, page, into)
    }
}
