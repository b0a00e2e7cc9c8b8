ghost use Rattle.std.specs.Prelude.{◌≡◌, IfOk, None, Some, false, replicate, true};
ghost use Rattle.bg_saver.specs.Members.{plant_state};
ghost use Rattle.bg_saver.specs.Save.{IsOfSave, MayRelease};
ghost use Rattle.bg_saver.specs.declared.save_end.SaveEnd.TheVariants as ends;
ghost use Rattle.plain_bus.specs.Bus.{IsBus};
ghost use Rattle.plain_bus.specs.Plant.{plant_state as bus_state};
ghost use Rattle.ram_block.specs.Shape.{total_pages_of};
ghost use Rattle.saver_tests.specs.Ended.{end_after};

use crate::save::{NoMachine, shaped, stopped};
use crate::turns::{begun, is_of_save};
use bg_saver::{Released, SaveFault, Saver, Turn};
use flat_machine::Machine;
use medium::{FailPlan, Medium, MemMedium};
use page_cell::{PageBuf, Plant, Taken};
use plain_bus::PlainBus;
use std::alloc::Global;
use std::test::Fail;

/// How many bytes the file of one block with three pages has.
const WHOLE_OF_THREE_PAGES: u64 = 1_061_264;

/// A machine with three pages, none of them all zeros.
fn three_pages(alloc: Global) -> Result<Machine, Fail> {
    let image = vec![in alloc; 1; 8193]?;
    shaped(alloc, 1, 3, &image)
}

/// A file of which the call of this number fails, and no other.
fn failing_once(alloc: Global, call: u64) -> Result<MemMedium, Fail> {
    let mut calls = Vec::new(alloc);
    calls.push(call)?;
    let plan = FailPlan { calls, from: None };
    Ok(MemMedium::new(alloc, Vec::new(alloc), WHOLE_OF_THREE_PAGES, 16, plan)?)
}

/// A bus over the machine with three pages, all of them protected.
fn protected_bus(alloc: Global) -> Result<PlainBus, Fail>
    ensures fits { IfOk result IsBus }
    ensures protected { IfOk result (λ b. b.writable ≡ replicate (total_pages_of b.machine.shape) false) }
{
    let machine = three_pages(alloc)?;
    if !machine.at_rest() {
        Err(NoMachine)?;
    }
    match PlainBus::start(alloc, machine, 2, true) {
        Ok(bus) => Ok(bus),
        Err((_, no_memory)) => Err(no_memory)?,
    }
}

/// A turn of the saver: by its answer the save has ended, and what is left after a failure may be released.
fn turn<P: Plant, M: Medium>(saver: &mut Saver, plant: &mut P, file: &mut M) -> Turn
    requires { IsOfSave saver.old (plant_state P.Plant plant.old) }
    ensures of_save { IsOfSave saver.new (plant_state P.Plant plant.new) }
    ensures end { saver.new.end ≡ end_after result saver.old.end }
    ensures may_release { saver.old.end ≡ None → saver.new.end ≡ Some ends.Failed → MayRelease saver.new (plant_state P.Plant plant.new) }
    ensures stays { MayRelease saver.old (plant_state P.Plant plant.old) → MayRelease saver.new (plant_state P.Plant plant.new) }
{
    saver.turn(plant, file)
}

/// Whether just so many turns come before the one that answers Failed.
fn fails_after<P: Plant, M: Medium>(
    saver: &mut Saver,
    plant: &mut P,
    file: &mut M,
    before: u32,
) -> bool
    requires of_save { IsOfSave saver.old (plant_state P.Plant plant.old) }
    requires runs { saver.old.end ≡ None }
    ensures of_save { IsOfSave saver.new (plant_state P.Plant plant.new) }
    ensures failed { result ≡ true → MayRelease saver.new (plant_state P.Plant plant.new) }
{
    for i in 0..4 {
        match turn(saver, plant, file) {
            Turn::Saved(_) | Turn::Skipped(_) | Turn::Again => {}
            Turn::Complete => return false,
            Turn::Failed => return i == before,
        }
    }
    false
}

/// Whether each of four turns after a failure answers Failed.
fn stays_failed<P: Plant, M: Medium>(saver: &mut Saver, plant: &mut P, file: &mut M) -> bool
    requires of_save { IsOfSave saver.old (plant_state P.Plant plant.old) }
    requires failed { MayRelease saver.old (plant_state P.Plant plant.old) }
    ensures of_save { IsOfSave saver.new (plant_state P.Plant plant.new) }
    ensures failed { MayRelease saver.new (plant_state P.Plant plant.new) }
{
    for _ in 0..4u32 {
        if turn(saver, plant, file) != Turn::Failed {
            return false;
        }
    }
    true
}

fn taken(bus: &mut PlainBus, page: u32, into: &mut PageBuf) -> Option<Taken> {
    if page >= bus.shape().total_pages() {
        return None;
    }
    Some(bus.take(page, into))
}

/// Whether each of the three pages is writable: a take finds it so.
fn are_writable(bus: &mut PlainBus, into: &mut PageBuf) -> bool {
    for page in 0..3 {
        if taken(bus, page, into) != Some(Taken::Stale) {
            return false;
        }
    }
    true
}

/// A save of the machine with three pages that has just begun on this file, and a bus over the machine.
fn begun_save(alloc: Global, file: &mut MemMedium) -> Result<(Saver, PlainBus), Fail>
    ensures of_save { IfOk result (λ made. IsOfSave made.0 (bus_state made.1)) }
    ensures runs { IfOk result (λ made. made.0.end ≡ None) }
{
    let stopped = stopped(alloc, three_pages(alloc)?)?;
    let saver = begun(alloc, &stopped, file)?;
    let bus = protected_bus(alloc)?;
    if stopped.machine().shape().total_pages() != bus.shape().total_pages() {
        Err(NoMachine)?;
    }
    is_of_save(&saver, &bus, stopped.machine(), file);
    Ok((saver, bus))
}

/// Whether a save of which the call of this number fails answers so after these turns and from then on, leaves its file, and
/// releases each page.
fn is_released(alloc: Global, call: u64, before: u32) -> Result<bool, Fail> {
    let mut page = PageBuf::new(alloc)?;
    let mut file = failing_once(alloc, call)?;
    let (mut saver, mut bus) = begun_save(alloc, &mut file)?;
    if !fails_after(&mut saver, &mut bus, &mut file, before) {
        return Ok(false);
    }
    let left = (file.unsynced(), file.bytes().len());
    let stays = stays_failed(&mut saver, &mut bus, &mut file);
    Ok(
        stays
            && left == (file.unsynced(), file.bytes().len())
            && saver.release(&mut bus) == Released::Done
            && are_writable(&mut bus, &mut page),
    )
}

/// The call that fails, and how many turns come before the one that answers so: three pages, the head and the tail, a sync,
/// the open gate and a sync.
static FAILS_AT: [(u64, u32); 8] = [
    (4, 0),
    (5, 1),
    (6, 2),
    (7, 3),
    (8, 3),
    (9, 3),
    (10, 3),
    (11, 3),
];

#[test]
fn a_failed_save_stays_so_and_releases_each_page(rt: HostRuntime) -> Result<(), Fail> {
    let alloc = rt.alloc();
    for (call, before) in &FAILS_AT {
        assert!(rt; is_released(alloc, *call, *before)?);
    }
    Ok(())
}

/// Whether a save of which the call of this number fails doesn't begin.
fn fails_to_begin(alloc: Global, call: u64) -> Result<bool, Fail> {
    let stopped = stopped(alloc, three_pages(alloc)?)?;
    let mut file = failing_once(alloc, call)?;
    let begun = Saver::begin(alloc, &stopped, &mut file);
    Ok(matches!(begun, Err(SaveFault::FileFault)))
}

#[test]
fn a_save_whose_first_calls_fail_does_not_begin(rt: HostRuntime) -> Result<(), Fail> {
    let alloc = rt.alloc();
    for call in 1..=3 {
        assert!(rt; fails_to_begin(alloc, call)?);
    }
    Ok(())
}
