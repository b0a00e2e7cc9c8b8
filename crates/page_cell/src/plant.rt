ghost use Rattle.std.specs.Prelude.{◌≡◌, ◌<◌, All, Bool, List, Option, false, length, ℕ};
ghost use Rattle.page_cell.specs.Plant.{LeavesPick, LeavesTake, plant_by};
ghost use Rattle.page_cell.specs.declared.plant.Pick.{Pick};

use ram_block::PageBuf;

/// What a pick answers.
#[derive(Clone, Copy, Debug, PartialEq, Eq)]
pub enum Pick {
    /// The front of the queue, which it took out.
    Fault(u32),
    Empty,
    /// The queue was found held.
    Busy,
}

/// What a take of a page answers.
#[derive(Clone, Copy, Debug, PartialEq, Eq)]
pub enum Taken {
    /// The bytes of the instant are in the buffer, and the page is writable.
    Copied,
    /// The page was writable already.
    Stale,
    /// The page was found held.
    Busy,
}

/// What a saver takes pages from while vCPUs run.
pub trait Plant {
    /// What neither call changes, beside the number of pages.
    type Rest;

    /// How many pages there are.
    ghost total: { Self → ℕ };

    /// Which pages are writable.
    ghost writable: { Self → List Bool };

    /// Which pages a pick has answered.
    ghost picked: { Self → List Bool };

    /// How often a lock was found held.
    ghost busy: { Self → ℕ };

    /// What neither call changes.
    ghost rest: { Self → Self.Rest };

    /// For which lists of the pages at the instant it stands.
    ghost stands: { Self → List (List ℕ) → Type 0 };

    /// Whether its parts belong together.
    ghost fits: { Self → Type 0 };

    /// How many picks there were.
    ghost picks: { Self → ℕ };

    /// What the last pick answered.
    ghost last: { Self → Option Pick };

    /// The queue of faulted pages, where it is told.
    ghost queue: { Self → Option (List ℕ) };

    /// Takes the front of the queue.
    fn pick(&mut self) -> Pick
        requires { fits self.old }
        ensures { LeavesPick (plant_by total writable picked busy rest stands fits picks last queue self.old)
            (plant_by total writable picked busy rest stands fits picks last queue self.new) result };

    /// Copies the bytes of the instant of a page out, and then makes the page writable.
    fn take(&mut self, page: u32, into: &mut PageBuf) -> Taken
        requires fits { fits self.old }
        requires page { page < total self.old }
        ensures { LeavesTake (plant_by total writable picked busy rest stands fits picks last queue self.old)
            (plant_by total writable picked busy rest stands fits picks last queue self.new) page into.old into.new result };

    /// There is a flag for each page.
    ghost flags: { (plant : Self) → fits plant → (length (writable plant) ≡ total plant) × (length (picked plant) ≡ total plant) };

    /// Where no page is writable it stands for one list at most.
    ghost one_list: { (plant : Self) (a b : List (List ℕ)) → fits plant → All (λ w. w ≡ false) (writable plant) → stands plant a → stands plant b → a ≡ b };
}
