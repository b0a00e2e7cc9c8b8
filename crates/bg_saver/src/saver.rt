ghost use Rattle.std.specs.Prelude.{◌≡◌, ◌≤◌, [], IfOk, IfSome, IsSome};
ghost use Rattle.flat_machine.specs.Machine.{IsMachine, MachineData, Rest};
ghost use Rattle.medium.specs.Count.{HasRisen};
ghost use Rattle.medium.specs.Crash.{Only};
ghost use Rattle.medium.specs.Members.{file_state};
ghost use Rattle.file_plan.specs.Layout.{Lay, file_of};
ghost use Rattle.file_plan.specs.UnderWay.{HasItsPieces};
ghost use Rattle.bg_saver.specs.Begin.{IsFirstByte, IsTornGate, LeavesBegin};
ghost use Rattle.bg_saver.specs.Members.{plant_state};
ghost use Rattle.bg_saver.specs.Release.{LeavesRelease};
ghost use Rattle.bg_saver.specs.Save.{IsBeforeAll, IsOfSave, IsUnderWay, IsWhole, MayRelease, Saves};
ghost use Rattle.bg_saver.specs.Saver.{IsSaver};
ghost use Rattle.bg_saver.specs.Turn.{LeavesTurn, MayBeLeft};
ghost use Rattle.bg_saver.specs.Writes.{LeavesSince};
ghost use Rattle.bg_saver.specs.declared.save_end.SaveEnd.TheVariants as ends;
ghost use Rattle.bg_saver.specs.declared.turn.Turn.TheVariants as turns;
ghost use Rattle.page_cell.specs.Plant.{pages_of};

use crate::finish::finish;
use crate::progress::Progress;
use crate::release::release_all;
use crate::take::save_next;
use crate::{Counts, Released, SaveFault, Turn};
use file_plan::{a_file_has_its_pieces, file_of_is_a_layout};
use medium::Medium;
use page_cell::{PageBuf, Plant};
use ram_block::NoMemory;
use std::alloc::Global;
use std::marker::Model;
use vm_stop::Stopped;

/// The saver of one machine at an instant. It takes all its memory when it begins.
#[derive(Drop)]
pub struct Saver {
    progress: Progress,
    // The page that is copied out of the plant and written.
    page: PageBuf,
    // Room for the longest head piece.
    head: Vec<u8>,
}

impl Model for Saver {
    ghost use Rattle.std.specs.Prelude.{◌≡◌, length};
    ghost use Rattle.file_plan.specs.Plan.{head_len_of};
    ghost use Rattle.bg_saver.specs.Saver.{SaverData};

    ghost Value = { SaverData };

    ghost view = { λ s. s.progress };

    ghost invariant = { λ s. length s.head.items ≡ head_len_of s.progress.shape.pages 0 };
}

impl Saver {
    /// Begins the save of a stopped machine on an empty file: the gate byte is written, shut, and made sure of.
    pub fn begin<M: Medium>(
        alloc: Global,
        stopped: &Stopped,
        medium: &mut M,
    ) -> Result<Saver, SaveFault>
        ensures leaves { LeavesBegin stopped.now (medium.new ≡ medium.old) (file_state M.Readable medium.old) (file_state M.Readable medium.new) result }
        ensures images { LeavesSince (file_state M.Readable medium.old) (file_state M.Readable medium.new) (IsTornGate (file_state M.Readable medium.old)) }
        ensures told { IfSome (M.told medium.old) (λ _. IsSome (M.told medium.new)) }
        ensures crash { Only [] (M.may_leave medium.old) → LeavesSince (file_state M.Readable medium.old) (file_state M.Readable medium.new) IsFirstByte }
    {
        let saver = Saver::at_instant(alloc, stopped)?;
        let len = medium.len()?;
        if len > 0 {
            return Err(SaveFault::NotEmpty(len));
        }
        medium.write_at(0, &[0])?;
        medium.sync()?;
        Ok(saver)
    }

    // The saver before its first call, with all its memory.
    fn at_instant(alloc: Global, stopped: &Stopped) -> Result<Saver, NoMemory>
        ensures before { IfOk result (λ d. IsBeforeAll d stopped.now) }
        ensures limits { IfOk result IsSaver }
    {
        let progress = Progress::at_instant(alloc, stopped)?;
        let longest = progress.plan().head_len(0);
        Ok(Saver {
            progress,
            page: PageBuf::new(alloc)?,
            head: vec![in alloc; 0; longest]?,
        })
    }

    /// Takes the next page and saves it, or finishes the file where no page is left.
    pub fn turn<P: Plant, M: Medium>(&mut self, plant: &mut P, medium: &mut M) -> Turn
        requires { IsOfSave self.old (plant_state P.Plant plant.old) }
        ensures leaves { LeavesTurn M.Readable self.old (plant.new ≡ plant.old) (plant_state P.Plant plant.old) (plant_state P.Plant plant.new) medium.old medium.new result self.new }
        ensures of_save { IsOfSave self.new (plant_state P.Plant plant.new) }
        ensures saves { (i : MachineData) → Saves self.old i → P.stands plant.old (pages_of i) → Saves self.new i }
        ensures kept { (i : MachineData) → IsUnderWay self.old i (plant_state P.Plant plant.old) (file_state M.Readable medium.old) → self.new.end ≡ None
            → IsUnderWay self.new i (plant_state P.Plant plant.new) (file_state M.Readable medium.new) }
        ensures complete { (i : MachineData) → IsUnderWay self.old i (plant_state P.Plant plant.old) (file_state M.Readable medium.old) → result ≡ turns.Complete
            → IsWhole i (M.told medium.old) (file_state M.Readable medium.new) }
        ensures crash { (i : MachineData) → IsUnderWay self.old i (plant_state P.Plant plant.old) (file_state M.Readable medium.old)
            → IfSome (M.told medium.old) (λ _. LeavesSince (file_state M.Readable medium.old) (file_state M.Readable medium.new) (MayBeLeft self.old.left i)) }
        ensures told { IfSome (M.told medium.old) (λ _. IsSome (M.told medium.new)) }
        ensures never_falls { M.faults medium.old ≤ M.faults medium.new }
        ensures fault { self.old.end ≡ None → result ≡ turns.Failed → HasRisen (M.faults medium.old) (M.faults medium.new) }
        ensures may_release { self.old.end ≡ None → self.new.end ≡ Some ends.Failed → MayRelease self.new (plant_state P.Plant plant.new) }
        ensures limits { IsSaver self.new }
    {
        file_laws();
        match self.progress.end() {
            Some(end) => Turn::at_end(end),
            None => match self.progress.first() {
                Some(first) => {
                    save_next(&mut self.progress, &mut self.page, plant, medium, first)
                }
                None => finish(&mut self.progress, &mut self.head, medium),
            },
        }
    }

    /// Makes each page writable that is left after a failure.
    pub fn release<P: Plant>(&mut self, plant: &mut P) -> Released
        requires { MayRelease self.old (plant_state P.Plant plant.old) }
        ensures leaves { LeavesRelease self.old (plant_state P.Plant plant.old) (plant_state P.Plant plant.new) result self.new }
        ensures may_release { MayRelease self.new (plant_state P.Plant plant.new) }
        ensures of_save { IsOfSave self.old (plant_state P.Plant plant.old) → IsOfSave self.new (plant_state P.Plant plant.new) }
        ensures limits { IsSaver self.new }
    {
        release_all(&mut self.progress, &mut self.page, plant)
    }

    /// How many pages were saved, by where they came from.
    pub fn counts(&self) -> Counts
        ensures counts { result ≡ self.now.counts }
        ensures limits { IsSaver self.now }
    {
        self.progress.counts()
    }
}

// What the file of a machine is.
fn file_laws()
    ensures pieces { (i : MachineData) → IsMachine i → HasItsPieces (file_of i) i }
    ensures layout { (i : MachineData) → IsMachine i → Rest i → Lay (file_of i) i }
{
    a_file_has_its_pieces();
    file_of_is_a_layout();
}
