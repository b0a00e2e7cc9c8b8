ghost use Rattle.std.specs.Prelude.{◌≡◌, ◌<◌, [], ◌∷◌, ◌++◌, Bool, List, length, ℕ};
ghost use Rattle.atomic_table.specs.Table.{State};
ghost use Rattle.flat_machine.specs.Machine.{MachineData};
ghost use Rattle.page_cell.specs.declared.cell.Cell.{Cell};
ghost use Rattle.bus_rule.specs.Clauses.{IsMoment, IsQueued, IsSavers, SaysContents, SaysFaults, SaysHolders, SaysPasses, SaysPhases, SaysReached, SaysVcpu, roles};
ghost use Rattle.bus_rule.specs.Kept.{Kept};
ghost use Rattle.bus_rule.specs.Order.{AreTraces, order_of, total_of, with_number};
ghost use Rattle.bus_rule.specs.Views.{Book, IsTask, PassData, Task};

/// The law of one event more: where the traces together hold N numbers, adding N to trace k makes their order the same
/// list followed by k.
#[tactic(auto, using(crate::proofs::Placed::append_laws))]
pub fn an_event_more_is_the_last_in_the_order()
    ensures { (traces : List (List ℕ)) (k : ℕ) → AreTraces traces → k < length traces → order_of (with_number traces k (total_of traces)) ≡ order_of traces ++ k ∷ [] }
{}

/// The law of the rule: what it says of a moment. There is one order of the traces, with its machine, one book of the
/// saver and one list of the queue; and of these it says eight things: who holds which cell; that the traces hold each
/// number once, and their order has a run; what each vCPU's pass shows of it; what the cells contain; which pages are
/// protected; what the vCPUs want; which passes there are; and why pages are wanted, queued and picked.
pub fn the_rule_says_eight_things()
    ensures book { (i : MachineData) (n : ℕ) (protect : Bool) (s : State Cell PassData) → Kept i n protect s → (b : Book) × IsSavers s b }
    ensures queue { (i : MachineData) (n : ℕ) (protect : Bool) (s : State Cell PassData) → Kept i n protect s → (queue : List ℕ) × IsQueued s i queue }
    ensures holders { (i : MachineData) (n : ℕ) (protect : Bool) (s : State Cell PassData) → Kept i n protect s → SaysHolders s }
    ensures moment { (i : MachineData) (n : ℕ) (protect : Bool) (s : State Cell PassData) → Kept i n protect s → (o : List ℕ) × (m : MachineData) × IsMoment s i o m }
    ensures vcpus { (i : MachineData) (n : ℕ) (protect : Bool) (s : State Cell PassData) (o : List ℕ) (m : MachineData) → Kept i n protect s → IsMoment s i o m → (j a : ℕ) (t : Task) → IsTask (roles s) j a t → SaysVcpu i n o m t }
    ensures contents { (i : MachineData) (n : ℕ) (protect : Bool) (s : State Cell PassData) (o : List ℕ) (m : MachineData) → Kept i n protect s → IsMoment s i o m → SaysContents s m }
    ensures phases { (i : MachineData) (n : ℕ) (protect : Bool) (s : State Cell PassData) (o : List ℕ) (m : MachineData) (b : Book) → Kept i n protect s → IsMoment s i o m → IsSavers s b → SaysPhases s i protect m b }
    ensures reached { (i : MachineData) (n : ℕ) (protect : Bool) (s : State Cell PassData) (b : Book) (queue : List ℕ) → Kept i n protect s → IsSavers s b → IsQueued s i queue → SaysReached s b queue }
    ensures passes { (i : MachineData) (n : ℕ) (protect : Bool) (s : State Cell PassData) (o : List ℕ) (m : MachineData) (b : Book) → Kept i n protect s → IsMoment s i o m → IsSavers s b → SaysPasses s i m b }
    ensures faults { (i : MachineData) (n : ℕ) (protect : Bool) (s : State Cell PassData) (o : List ℕ) (m : MachineData) (b : Book) (queue : List ℕ) → Kept i n protect s → IsMoment s i o m → IsSavers s b → IsQueued s i queue → SaysFaults s i o m b queue }
{}
