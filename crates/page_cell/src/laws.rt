ghost use Rattle.std.specs.Prelude.{◌≡◌, ◌↔◌, List, ℕ, Some, false, slice_get, true};
ghost use Rattle.rv64i_step.specs.Event.{request_of};
ghost use Rattle.rv64i_step.specs.Request.{CanServe, written_page};
ghost use Rattle.rv64i_step.specs.Vcpu.{VcpuData};
ghost use Rattle.rv64i_step.specs.declared.request.Request.{Request};
ghost use Rattle.flat_machine.specs.Cell.{CellName, Content, PageCell, content, content_after, with_content};
ghost use Rattle.flat_machine.specs.Laws.{ServesAll};
ghost use Rattle.flat_machine.specs.Machine.{MachineData};
ghost use Rattle.flat_machine.specs.Next.{after_event, cell_of, next, vcpu_after};
ghost use Rattle.page_cell.specs.Cell.{FitsCell, cell_after, cell_gives, content_of, phase_in, stops_at};
ghost use Rattle.page_cell.specs.Core.{KeepsInstant, Turn, core_after, core_from};
ghost use Rattle.page_cell.specs.declared.cell.Cell.{Cell};
ghost use Rattle.page_cell.specs.declared.phase.Phase.TheVariants.{Protected, Writable};

/// The law of an event and its parts: what the cell and the vCPU make of a request that the cell doesn't stop is what
/// the machine makes of it.
#[tactic(auto, using(crate::proofs::Parts::part_laws))]
pub fn an_event_is_made_of_its_parts()
    ensures event { (m : MachineData) (k : ℕ) (v : VcpuData) (r : Request) (c : CellName) (x : Cell) (y : Content) → slice_get m.vcpus k ≡ Some v → request_of m.shape v ≡ r → cell_of r ≡ Some c → content_of x ≡ Some (content m c) → content_of (cell_after r x) ≡ Some y → next m k ≡ Some (after_event (with_content m c y) k (vcpu_after m.shape v r (cell_gives r x m.clock))) }
    ensures content { (r : Request) (x : Cell) (a : Content) → content_of x ≡ Some a → content_of (cell_after r x) ≡ Some (content_after r a) }
    ensures phase { (r : Request) (x : Cell) → phase_in (cell_after r x) ≡ phase_in x }
    ensures fits { (m : MachineData) (r : Request) (c : CellName) (x : Cell) → CanServe m.shape r → cell_of r ≡ Some c → content_of x ≡ Some (content m c) → FitsCell r x }
    ensures stops { (m : MachineData) (r : Request) (p : ℕ) (x : Cell) → cell_of r ≡ Some (PageCell p) → content_of x ≡ Some (content m (PageCell p)) → phase_in x ≡ Protected → (stops_at r x ≡ true) ↔ (written_page r ≡ Some p) }
    ensures free { (r : Request) (x : Cell) → phase_in x ≡ Writable → stops_at r x ≡ false }
{}

/// The law of the core: whatever the turns from an instant on, each page that was recorded has its bytes of the
/// instant, each page that is protected still has them, and the machine is that of the events so far.
pub fn what_is_recorded_is_the_instant()
    ensures { (i : MachineData) (turns : List Turn) → ServesAll i → KeepsInstant i (core_after (core_from i) turns) }
{}
