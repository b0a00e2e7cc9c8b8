// The copier's worker.
ghost use Rattle.bg_saver.specs.Members.{plant_state};
ghost use Rattle.write_pipe.specs.CopyEnd.{IsOfCopy};
ghost use Rattle.write_pipe.specs.Relayed.{CopiesAll};

use crate::{CopyEnd, CopyTurn};
use page_cell::Plant;
use ram_block::Gate;
use std::sync::Wait;
use std::thread::yield_now;

/// The copier's worker: its turns until every page went in, each told to the gate by its number. One that can't go on lets
/// another thread run.
pub(crate) fn copy_all<R: Wait, P: Plant, G: Gate>(
    rt: &R,
    plant: &mut P,
    copier: &mut CopyEnd<P>,
    gate: &G,
)
    requires { IsOfCopy P.total P.stands copier.old (plant_state P.Plant plant.old) }
    ensures { CopiesAll P.total P.stands copier.old (plant_state P.Plant plant.old) copier.new (plant_state P.Plant plant.new) }
{
    let mut n = 0u32;
    for _ in rt.forever() {
        n = n.saturating_add(1);
        gate.before_turn(n);
        match copier.turn(rt, plant) {
            CopyTurn::Passed(_) | CopyTurn::Skipped(_) => {}
            CopyTurn::Again | CopyTurn::Full | CopyTurn::NoSpare => yield_now(),
            CopyTurn::Done => return,
        }
    }
    unreachable!()
}
