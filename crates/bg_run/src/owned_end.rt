ghost use Rattle.std.specs.Prelude.{◌<◌, None};
ghost use Rattle.page_cell.specs.Plant.{LeavesPick, LeavesTake};
ghost use Rattle.page_bus.specs.Passes.{book_of};
ghost use Rattle.page_bus.specs.Plant.{IsPassOf, StandsFor, end_state, rest_of};
ghost use Rattle.page_bus.specs.PlantLaws.{end_flags, end_one_list};
ghost use Rattle.page_bus.specs.Saves.{pages_of_book};

use page_bus::{Bus, EndRest, SaverPass};
use page_cell::{PageBuf, Pick, Plant, Taken};

/// The bus as the saver sees it, with the saver's pass itself. Behind a `&mut` to a plant nothing is known of what the plant
/// borrows, and the pass has to come back whole for the bus to close.
pub struct OwnedEnd<'a> {
    pub bus: &'a Bus,
    pub pass: SaverPass,
}

impl Plant for OwnedEnd<'_> {
    type Rest = EndRest;

    ghost total = { λ s. pages_of_book (book_of s.pass.view) };

    ghost writable = { λ s. (book_of s.pass.view).writable };

    ghost picked = { λ s. (book_of s.pass.view).picked };

    ghost busy = { λ s. s.pass.view.busy };

    ghost rest = { λ s. rest_of s.bus.now s.pass };

    ghost stands = { λ s. StandsFor s.pass };

    ghost fits = { λ s. IsPassOf s.bus.now s.pass };

    ghost picks = { λ s. s.pass.picks };

    ghost last = { λ s. s.pass.last };

    ghost queue = { λ s. None };

    ghost flags = { λ s. end_flags s.bus.now s.pass };

    ghost one_list = { λ s. end_one_list s.bus.now s.pass };

    fn pick(&mut self) -> Pick
        requires { IsPassOf self.old.bus.now self.old.pass }
        ensures { LeavesPick (end_state self.old.bus.now self.old.pass) (end_state self.new.bus.now self.new.pass) result }
    {
        self.bus.pick_as(&mut self.pass)
    }

    fn take(&mut self, page: u32, into: &mut PageBuf) -> Taken
        requires fits { IsPassOf self.old.bus.now self.old.pass }
        requires page { page < pages_of_book (book_of self.old.pass.view) }
        ensures { LeavesTake (end_state self.old.bus.now self.old.pass) (end_state self.new.bus.now self.new.pass) page into.old into.new result }
    {
        self.bus.take_as(&mut self.pass, page, into)
    }
}
