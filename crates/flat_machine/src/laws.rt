ghost use Rattle.std.specs.Prelude.{◌≡◌, ◌≢◌, ◌==◌, ℕ, ◌<◌, ◌≤◌, ◌↔◌, true, ◌∷◌, ◌++◌, ◌+◌, ◌*◌, [], All, List, Option, Some, None, length, nat_eq, slice_get, take};
ghost use Rattle.std.specs.List.{count_by, Contains, IsDistinct};
ghost use Rattle.ram_block.specs.Shape.{ram_bytes_of, total_pages_of};
ghost use Rattle.ram_block.specs.declared.cause.Cause.{Cause};
ghost use Rattle.rv64i_step.specs.Event.{fetched_vcpu, request_of};
ghost use Rattle.rv64i_step.specs.Vcpu.{VcpuData};
ghost use Rattle.rv64i_step.specs.declared.request.Request.{Request};
ghost use Rattle.rv64i_step.specs.declared.request.Request.TheVariants.{NoFetch};
ghost use Rattle.flat_machine.specs.Cell.{CellName, Content, content, with_content};
ghost use Rattle.flat_machine.specs.Laws.{AgreesAt, HasEvent, HasRoom, HasTheSame, IsContentOf, KeepsRest, KeepsSizes, MakesTheSame, ServesAll, event_cell, event_written_page};
ghost use Rattle.flat_machine.specs.Machine.{IsMachine, MachineData, Rest, page_of};
ghost use Rattle.flat_machine.specs.Next.{cell_of, next, after_cell_event, after_event};
ghost use Rattle.flat_machine.specs.Run.{Phase, halted_at, rounds, rounds_run, run, run_on, steps_of};
ghost use Rattle.flat_machine.specs.Touched.{IsTouched, touched, with_cell};

/// The law of runs: a run goes on by its next event, its beginnings stay, and one order follows another.
#[tactic(auto, using(crate::proofs::Runs::run_laws))]
pub fn a_run_goes_on_by_its_next_event()
    ensures next { (m : MachineData) (n : MachineData) (o : List ℕ) (k : ℕ) → run m o ≡ Some n → run m (o ++ k ∷ []) ≡ next n k }
    ensures beginnings { (m : MachineData) (o : List ℕ) (k : ℕ) (t : ℕ) → t ≤ length o → run m (take t (o ++ k ∷ [])) ≡ run m (take t o) }
    ensures joined { (m : MachineData) (o : List ℕ) (p : List ℕ) → run m (o ++ p) ≡ run_on (run m o) p }
{}

/// The law of an event: it writes to the cell of its request, to its vCPU, and raises the clock; a fetch that has no
/// place writes to its vCPU alone.
#[tactic(auto, using(crate::proofs::Events::event_laws))]
pub fn an_event_touches_one_cell_and_one_vcpu()
    ensures touches { (m : MachineData) (k : ℕ) (v : VcpuData) (r : Request) (c : CellName) → slice_get m.vcpus k ≡ Some v → request_of m.shape v ≡ r → cell_of r ≡ Some c → next m k ≡ Some (after_cell_event m k v r c) }
    ensures no_fetch { (m : MachineData) (k : ℕ) (v : VcpuData) (cause : Cause) → slice_get m.vcpus k ≡ Some v → request_of m.shape v ≡ NoFetch cause → next m k ≡ Some (after_event m k (fetched_vcpu m.shape v None)) }
{}

/// The law of cells: a cell holds what was written to it last, and every other cell what it held.
#[tactic(auto, using(crate::proofs::Cells::cell_laws))]
pub fn a_cell_holds_what_was_written_to_it()
    ensures same { (m : MachineData) (c : CellName) (x : Content) → length m.ram ≡ ram_bytes_of m.shape → IsContentOf m.shape c x → content (with_content m c x) c ≡ x }
    ensures other { (m : MachineData) (c : CellName) (d : CellName) (x : Content) → length m.ram ≡ ram_bytes_of m.shape → IsContentOf m.shape c x → d ≢ c → content (with_content m c x) d ≡ content m d }
    ensures size { (m : MachineData) (c : CellName) (x : Content) → length m.ram ≡ ram_bytes_of m.shape → IsContentOf m.shape c x → length (with_content m c x).ram ≡ length m.ram }
{}

/// The law of the frame: an event leaves every other vCPU, and every page and device but the one that it touches; what
/// it makes of its vCPU and of that page or device depends on these two, the shape and the clock alone.
#[tactic(auto, using(crate::proofs::Frames::next_depends))]
pub fn an_event_leaves_the_rest()
    ensures keeps { (m : MachineData) (k : ℕ) (after : MachineData) → ServesAll m → next m k ≡ Some after → KeepsRest m k after }
    ensures run { (m : MachineData) (o : List ℕ) (after : MachineData) → ServesAll m → run m o ≡ Some after → KeepsSizes m o after }
    ensures depends { (m : MachineData) (other : MachineData) (k : ℕ) (after : MachineData) → ServesAll m → ServesAll other → AgreesAt m other k → next m k ≡ Some after → MakesTheSame m k after other }
{}

/// What the laws of an event need of a machine: each within the limits has it, and each event and run keeps it.
#[tactic(auto, using(crate::proofs::Servable::machine_serves))]
pub fn an_event_keeps_what_its_laws_need()
    ensures machine { (m : MachineData) → IsMachine m → ServesAll m }
    ensures next { (m : MachineData) (k : ℕ) (after : MachineData) → ServesAll m → next m k ≡ Some after → ServesAll after }
    ensures run { (m : MachineData) (o : List ℕ) (after : MachineData) → ServesAll m → run m o ≡ Some after → ServesAll after }
{}

/// The law of what comes of an event: there is none exactly where the vCPU is halted, and an event makes its vCPU into
/// one that is halted where it stood, or awaits an access, or has finished an instruction.
#[tactic(auto, using(crate::proofs::Outcomes::outcome_laws))]
pub fn an_event_halts_or_awaits_or_finishes()
    ensures none { (m : MachineData) (k : ℕ) → ServesAll m → (next m k ≡ None) ↔ (halted_at m k ≡ true) }
    ensures event { (m : MachineData) (k : ℕ) (after : MachineData) → ServesAll m → next m k ≡ Some after → HasEvent m k after }
{}

/// The law of rounds: from a machine at rest they are a phase, and the machine that they leave is that of their run.
#[tactic(auto, using(crate::proofs::RoundPhases::rounds_laws))]
pub fn rounds_are_a_phase()
    ensures phase { (m : MachineData) (n : ℕ) → Rest m → length m.vcpus ≡ m.shape.vcpus → Phase m n (rounds m n) }
    ensures ran { (m : MachineData) (n : ℕ) → Rest m → run m (rounds m n) ≡ Some (rounds_run m n).machine }
{}

/// The law of a phase: from a machine at rest it leaves no pending access, no vCPU finishes more instructions in it than
/// it has, and each instruction has at most two events.
#[tactic(auto, using(crate::proofs::PhaseEnds::phase_length))]
pub fn a_phase_leaves_no_pending_access()
    ensures pending { (m : MachineData) (n : ℕ) (o : List ℕ) (last : MachineData) → Rest m → length m.vcpus ≡ m.shape.vcpus → Phase m n o → run m o ≡ Some last → All (λ v. v.pending ≡ None) last.vcpus }
    ensures steps { (m : MachineData) (n : ℕ) (o : List ℕ) (t : ℕ) (at : MachineData) (k : ℕ) → Rest m → Phase m n o → t ≤ length o → run m (take t o) ≡ Some at → steps_of at k ≤ steps_of m k + n }
    ensures events { (m : MachineData) (n : ℕ) (o : List ℕ) → Rest m → length m.vcpus ≡ m.shape.vcpus → Phase m n o → length o ≤ 2 * n * m.shape.vcpus }
    ensures own_events { (m : MachineData) (n : ℕ) (o : List ℕ) (k : ℕ) → Rest m → Phase m n o → count_by (λ j. j == k) o ≤ 2 * n }
{}

/// The law of the page that an event writes, where it writes one: every other page stays.
pub fn an_event_writes_one_page_at_most()
    ensures { (m : MachineData) (k : ℕ) (after : MachineData) (p : ℕ) → ServesAll m → next m k ≡ Some after → p < total_pages_of m.shape → event_written_page m k ≢ Some p → page_of after p ≡ page_of m p }
{}

/// The law that RAM is determined by its pages, and a machine by its shape, vCPUs, clock and cells.
pub fn a_machine_is_determined_by_its_cells()
    ensures ram { (m : MachineData) (other : MachineData) → other.shape ≡ m.shape → length m.ram ≡ ram_bytes_of m.shape → length other.ram ≡ ram_bytes_of other.shape → ((p : ℕ) → p < total_pages_of m.shape → page_of other p ≡ page_of m p) → other.ram ≡ m.ram }
    ensures machine { (m : MachineData) (other : MachineData) → HasTheSame m other → other ≡ m }
{}

/// The law that a phase ends at rest, from a machine at rest whose clock and steps leave room for it.
pub fn a_phase_with_room_ends_at_rest()
    ensures { (m : MachineData) (n : ℕ) (o : List ℕ) (last : MachineData) → Rest m → HasRoom m n → length m.vcpus ≡ m.shape.vcpus → Phase m n o → run m o ≡ Some last → Rest last }
{}

/// The law that each event of a run is one of a vCPU of the machine.
pub fn a_run_has_members_of_the_machine()
    ensures { (m : MachineData) (o : List ℕ) (after : MachineData) → run m o ≡ Some after → All (λ k. k < length m.vcpus) o }
{}

/// The law of the pages that a run touches: they are those of its events, each once, and an event more adds its own.
pub fn a_run_touches_the_pages_of_its_events()
    ensures events { (m : MachineData) (o : List ℕ) (p : ℕ) → Contains (touched m o) p ↔ IsTouched m o p }
    ensures once { (m : MachineData) (o : List ℕ) → IsDistinct nat_eq (touched m o) }
    ensures next { (m : MachineData) (n : MachineData) (o : List ℕ) (k : ℕ) → run m o ≡ Some n → touched m (o ++ k ∷ []) ≡ with_cell (touched m o) (event_cell n k) }
{}
