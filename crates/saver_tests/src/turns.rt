ghost use Rattle.std.specs.Prelude.{◌≡◌, false, replicate, IfOk};
ghost use Rattle.medium.specs.Members.{file_state};
ghost use Rattle.ram_block.specs.Shape.{total_pages_of};
ghost use Rattle.bg_saver.specs.Members.{plant_state};
ghost use Rattle.bg_saver.specs.Save.{HasJustBegun, IsOfSave};

use crate::held_once::held_once;
use crate::save::{NoMachine, failing_from, shaped, stopped};
use bg_saver::{Counts, Saver, Turn};
use flat_machine::Machine;
use medium::{Medium, MemMedium};
use page_cell::Plant;
use std::alloc::Global;
use std::test::Fail;
use vm_stop::Stopped;

/// How many bytes the file of one block with two pages has.
const WHOLE_OF_TWO_PAGES: u64 = 1_057_168;

/// The save of a stopped machine, which has just begun.
pub(crate) fn begun<M: Medium>(
    alloc: Global,
    stopped: &Stopped,
    file: &mut M,
) -> Result<Saver, Fail>
    ensures { IfOk result (λ d. HasJustBegun d stopped.now (file_state M.Readable file.new)) }
{
    match Saver::begin(alloc, stopped, file) {
        Ok(saver) => Ok(saver),
        Err(_) => Err(NoMachine)?,
    }
}

/// A plant with no page writable is that of a save which has just begun.
#[tactic(auto, using(crate::proofs::Begun::begun_of_save))]
pub(crate) fn is_of_save<P: Plant, M: Medium>(
    _saver: &Saver,
    _plant: &P,
    _stopped: &Machine,
    _file: &M,
)
    requires begun { HasJustBegun _saver.now _stopped.now (file_state M.Readable _file.now) }
    requires fits { P.fits _plant.now }
    requires total { P.total _plant.now ≡ total_pages_of _stopped.now.shape }
    requires protected { P.writable _plant.now ≡ replicate (P.total _plant.now) false }
    ensures { IsOfSave _saver.now (plant_state P.Plant _plant.now) }
{}

/// A turn of the saver.
fn turn<P: Plant, M: Medium>(saver: &mut Saver, plant: &mut P, file: &mut M) -> Turn
    requires { IsOfSave saver.old (plant_state P.Plant plant.old) }
    ensures { IsOfSave saver.new (plant_state P.Plant plant.new) }
{
    saver.turn(plant, file)
}

#[test]
fn a_page_taken_twice_is_skipped_and_not_counted(rt: HostRuntime) -> Result<(), Fail> {
    let alloc = rt.alloc();
    let stopped = stopped(alloc, shaped(alloc, 1, 2, &[])?)?;
    let mut file = MemMedium::new(
        alloc,
        Vec::new(alloc),
        WHOLE_OF_TWO_PAGES,
        16,
        failing_from(alloc, None),
    )?;
    let mut saver = begun(alloc, &stopped, &mut file)?;
    let mut plant = held_once();
    if stopped.machine().shape().total_pages() != 2 {
        Err(NoMachine)?;
    }
    is_of_save(&saver, &plant, stopped.machine(), &file);
    assert_eq!(rt; turn(&mut saver, &mut plant, &mut file), Turn::Again);
    assert_eq!(rt; turn(&mut saver, &mut plant, &mut file), Turn::Saved(0));
    assert_eq!(rt; turn(&mut saver, &mut plant, &mut file), Turn::Skipped(0));
    assert_eq!(rt;
        saver.counts(),
        Counts {
            faults: 0,
            sweep: 1
        }
    );
    assert_eq!(rt; turn(&mut saver, &mut plant, &mut file), Turn::Saved(1));
    assert_eq!(rt; turn(&mut saver, &mut plant, &mut file), Turn::Complete);
    assert_eq!(rt;
        saver.counts(),
        Counts {
            faults: 0,
            sweep: 2
        }
    );
    Ok(())
}
