ghost use Rattle.std.specs.Prelude.{◌≡◌, ◌≢◌, ◌<◌, Some, slice_get};
ghost use Rattle.page_sweep.specs.Sweep.{without};
ghost use Rattle.bg_saver.specs.Members.{plant_state};
ghost use Rattle.bg_saver.specs.Release.{LeavesRelease};
ghost use Rattle.bg_saver.specs.Save.{IsOfSave, MayRelease};
ghost use Rattle.bg_saver.specs.Saver.{IsSaver};

use crate::Released;
use crate::progress::Progress;
use page_cell::{PageBuf, Plant, Taken};

/// Takes the pages left one by one, without a call on the file.
pub(crate) fn release_all<P: Plant>(
    progress: &mut Progress,
    page: &mut PageBuf,
    plant: &mut P,
) -> Released
    requires { MayRelease progress.old (plant_state P.Plant plant.old) }
    ensures leaves { LeavesRelease progress.old (plant_state P.Plant plant.old) (plant_state P.Plant plant.new) result progress.new }
    ensures may_release { MayRelease progress.new (plant_state P.Plant plant.new) }
    ensures of_save { IsOfSave progress.old (plant_state P.Plant plant.old) → IsOfSave progress.new (plant_state P.Plant plant.new) }
    ensures limits { IsSaver progress.new }
{
    while let Some(first) = progress.first() {
        match plant.take(first, page) {
            Taken::Busy => return Released::Again,
            Taken::Copied | Taken::Stale => progress.let_go(first),
        }
    }
    Released::Done
}
