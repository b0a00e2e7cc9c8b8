ghost use Rattle.std.specs.Prelude.{◌≡◌, ◌<◌, IfSome, None, Some, slice_get, true};
ghost use Rattle.ram_block.specs.PageLinks.{is_listed};
ghost use Rattle.medium.specs.Members.{file_state};
ghost use Rattle.page_cell.specs.Plant.{KeepsPlant};
ghost use Rattle.bg_saver.specs.Members.{plant_state};
ghost use Rattle.bg_saver.specs.Save.{IsOfSave};
ghost use Rattle.bg_saver.specs.Saver.{IsSaver, total_of};
ghost use Rattle.bg_saver.specs.Turn.{LeavesNoPick, LeavesPicked, LeavesTaken, LeavesTurn, SavesOrFails};

use crate::Turn;
use crate::progress::{PageInHand, Progress};
use crate::zeros::is_zeros;
use medium::Medium;
use page_cell::{PageBuf, Pick, Plant, Taken};

/// Takes the next page, where one is left, and saves it.
pub(crate) fn save_next<P: Plant, M: Medium>(
    progress: &mut Progress,
    page: &mut PageBuf,
    plant: &mut P,
    medium: &mut M,
    first: u32,
) -> Turn
    requires runs { progress.old.end ≡ None }
    requires of_save { IsOfSave progress.old (plant_state P.Plant plant.old) }
    requires first { slice_get progress.old.left 0 ≡ Some first }
    requires below { first < total_of progress.old }
    ensures leaves { LeavesTurn M.Readable progress.old (plant.new ≡ plant.old) (plant_state P.Plant plant.old) (plant_state P.Plant plant.new) medium.old medium.new result progress.new }
    ensures limits { IsSaver progress.new }
{
    match next_page(progress, plant, first) {
        Some(taken) => take_page(progress, page, plant, medium, taken),
        None => Turn::Again,
    }
}

// The page that is taken next, by a pick unless one is in hand, or none where the queue was found held.
fn next_page<P: Plant>(progress: &Progress, plant: &mut P, first: u32) -> Option<PageInHand>
    requires runs { progress.now.end ≡ None }
    requires of_save { IsOfSave progress.now (plant_state P.Plant plant.old) }
    requires first { slice_get progress.now.left 0 ≡ Some first }
    requires below { first < total_of progress.now }
    ensures picked { LeavesPicked progress.now (plant_state P.Plant plant.old) (plant_state P.Plant plant.new) result }
    ensures below { IfSome result (λ next. next.page < total_of progress.now) }
    ensures limits { IsSaver progress.now }
{
    match progress.hand() {
        Some(hand) => Some(hand),
        None => match plant.pick() {
            Pick::Fault(page) => Some(PageInHand { page, picked: true }),
            Pick::Empty => Some(PageInHand {
                page: first,
                picked: false,
            }),
            Pick::Busy => None,
        },
    }
}

// Takes the page, and saves it.
fn take_page<P: Plant, M: Medium>(
    progress: &mut Progress,
    page: &mut PageBuf,
    plant: &mut P,
    medium: &mut M,
    taken: PageInHand,
) -> Turn
    requires runs { progress.old.end ≡ None }
    requires of_save { IsOfSave progress.old (plant_state P.Plant plant.old) }
    requires page { taken.page < total_of progress.old }
    ensures keeps { KeepsPlant (plant_state P.Plant plant.old) (plant_state P.Plant plant.new) }
    ensures no_pick { LeavesNoPick (plant_state P.Plant plant.old) (plant_state P.Plant plant.new) }
    ensures taken { LeavesTaken progress.old (medium.new ≡ medium.old) (plant_state P.Plant plant.old) (plant_state P.Plant plant.new)
        (file_state M.Readable medium.old) (file_state M.Readable medium.new) taken result progress.new }
    ensures limits { IsSaver progress.new }
{
    match plant.take(taken.page, page) {
        Taken::Busy => {
            progress.hold(Some(taken));
            Turn::Again
        }
        Taken::Stale => {
            progress.hold(None);
            Turn::Skipped(taken.page)
        }
        Taken::Copied => save_page(progress, page, medium, taken),
    }
}

// Writes the page at its place, unless it is all zeros.
fn save_page<M: Medium>(
    progress: &mut Progress,
    page: &PageBuf,
    medium: &mut M,
    taken: PageInHand,
) -> Turn
    requires runs { progress.old.end ≡ None }
    requires page { taken.page < total_of progress.old }
    requires left { is_listed progress.old.left taken.page ≡ true }
    ensures saved { SavesOrFails progress.old (medium.new ≡ medium.old) (file_state M.Readable medium.old) (file_state M.Readable medium.new) taken page.now result progress.new }
    ensures limits { IsSaver progress.new }
{
    let zeros = is_zeros(page.bytes());
    if !zeros {
        let at = progress.plan().page_at(taken.page);
        if medium.write_at(at, page.bytes()).is_err() {
            progress.failed_at(taken.page);
            return Turn::Failed;
        }
    }
    progress.saved(taken, zeros);
    Turn::Saved(taken.page)
}
