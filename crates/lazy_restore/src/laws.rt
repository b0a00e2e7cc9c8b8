ghost use Rattle.std.specs.Prelude.{◌≡◌, ℕ, List, Some, []};
ghost use Rattle.flat_machine.specs.Machine.{MachineData};
ghost use Rattle.flat_machine.specs.Run.{run};
ghost use Rattle.flat_machine.specs.Touched.{touched};
ghost use Rattle.lazy_restore.specs.Lazy.{IsLazy, IsWhole, LazyData, shown};
ghost use Rattle.lazy_restore.specs.Runs.{StepsBy};

/// The law of steps: over a file of which no page is cut, the machine shown is that of a run without a file, and the
/// pages touched are those that the run touches.
#[tactic(auto, using(crate::proofs::RunsOn::runs, crate::proofs::RunsOn::touches))]
pub fn a_lazy_machine_runs_as_the_whole_one()
    ensures machine { (file : List ℕ) (d e : LazyData) (o : List ℕ) → IsWhole file d → StepsBy file d o e → run (shown file d) o ≡ Some (shown file e) }
    ensures touched { (file : List ℕ) (d e : LazyData) (o : List ℕ) → IsWhole file d → d.touched ≡ [] → StepsBy file d o e → e.touched ≡ touched (shown file d) o }
{}
