ghost use Rattle.medium.specs.Members.{file_state};
ghost use Rattle.flat_machine.specs.Machine.{MachineData};
ghost use Rattle.bg_saver.specs.Members.{plant_state};
ghost use Rattle.bg_saver.specs.Save.{HasJustBegun, IsAtInstant, IsOfSave, IsUnderWay};
ghost use Rattle.bg_saver.specs.Saver.{SaverData};

use medium::Medium;
use page_cell::Plant;

/// The law that what a begin leaves of a machine is what a turn asks, with a plant that stands for the machine's pages
/// and has none writable.
pub fn a_save_begins_at_the_instant<P: Plant, M: Medium>(_plant: &P, _medium: &M)
    ensures of_save { (d : SaverData) (i : MachineData) → HasJustBegun d i (file_state M.Readable _medium.now) → IsAtInstant i (plant_state P.Plant _plant.now) → IsOfSave d (plant_state P.Plant _plant.now) }
    ensures under_way { (d : SaverData) (i : MachineData) → HasJustBegun d i (file_state M.Readable _medium.now) → IsAtInstant i (plant_state P.Plant _plant.now)
        → IsUnderWay d i (plant_state P.Plant _plant.now) (file_state M.Readable _medium.now) }
{}
