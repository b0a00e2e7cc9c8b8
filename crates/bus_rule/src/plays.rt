// What each kind of step tells. These types are for the proofs alone.
ghost use Rattle.std.specs.Prelude.{◌-◌};
ghost use Rattle.bus_rule.specs.Plays.{after_join, after_split, next_pass, spent_pass};
ghost use Rattle.bus_rule.specs.Tells.{DrawsAlone, DrawsWithCell, GivesBack, MarksAs, TakesOrFinds, pick_by, release_by, stop_by};

use crate::PassView;
use atomic_table::{Join, Play, Split};
use page_cell::Cell;

pub(crate) struct Take;

impl Play<Cell, PassView> for Take {
    ghost then = { λ step. TakesOrFinds (step.word - 1) step.second };
}

pub(crate) struct Give;

impl Play<Cell, PassView> for Give {
    ghost then = { λ _ before _. GivesBack before };
}

pub(crate) struct Draw;

impl Play<Cell, PassView> for Draw {
    ghost then = { λ _. DrawsWithCell };
}

pub(crate) struct DrawAlone;

impl Play<Cell, PassView> for DrawAlone {
    ghost then = { λ _. DrawsAlone };
}

pub(crate) struct Release;

impl Play<Cell, PassView> for Release {
    ghost then = { λ _ before _. MarksAs release_by before };
}

pub(crate) struct Stop;

impl Play<Cell, PassView> for Stop {
    ghost then = { λ _ before _. MarksAs stop_by before };
}

pub(crate) struct Pick;

impl Play<Cell, PassView> for Pick {
    ghost then = { λ _ before _. MarksAs pick_by before };
}

pub(crate) struct Part;

impl Split<PassView> for Part {
    ghost left = { after_split };

    ghost right = { next_pass };
}

impl Join<PassView> for Part {
    ghost both = { after_join };

    ghost spent = { spent_pass };
}
