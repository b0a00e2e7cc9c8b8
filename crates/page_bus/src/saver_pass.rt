ghost use Rattle.std.specs.Prelude.{◌≡◌};
ghost use Rattle.page_bus.specs.Passes.{IsSaverPass, book_of};
ghost use Rattle.page_bus.specs.Saves.{pages_of_book};

use bus_rule::PassSeat;
use page_cell::Pick;
use ram_block::Shape;
use std::marker::Model;

/// The pass of the saver, by which it picks and takes pages of its bus. In its caller's hand it holds no cell.
#[derive(Drop)]
pub struct SaverPass {
    pub(crate) seat: PassSeat,
    pub(crate) shape: Shape,
    pub(crate) busy: u64,
    pub(crate) picks: u64,
    pub(crate) last: Option<Pick>,
}

impl Model for SaverPass {
    ghost use Rattle.page_bus.specs.Passes.{SaverPassData};

    ghost Value = { SaverPassData };

    ghost use Rattle.page_bus.specs.Inside.{IsSaverInside, saver_pass_of};

    ghost view = { saver_pass_of };

    ghost invariant = { IsSaverInside };
}

impl SaverPass {
    /// How often it found a cell held, or the greatest u64 where it was more often.
    pub fn busy(&self) -> u64
        ensures value { result ≡ self.now.view.busy }
        ensures limits { IsSaverPass self.now }
    {
        self.busy
    }

    /// How many pages its bus has.
    pub fn pages(&self) -> u32
        ensures value { result ≡ pages_of_book (book_of self.now.view) }
        ensures limits { IsSaverPass self.now }
    {
        self.shape.total_pages()
    }
}
