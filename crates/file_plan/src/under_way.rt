ghost use Rattle.std.specs.Prelude.{◌≡◌, ℕ, ◌+◌, ◌<◌, List, [], ◌∷◌, length, Some, slice_get};
ghost use Rattle.medium.specs.Bytes.{written};
ghost use Rattle.flat_machine.specs.Machine.{IsMachine, MachineData};
ghost use Rattle.file_plan.specs.Layout.{Lay, StandsAt, file_of};
ghost use Rattle.file_plan.specs.UnderWay.{Covers, CoversFile, HasItsPieces, IsLaidSoFar, IsShutFile};

use crate::GATE;

/// The law that the file which a save writes has each of its pieces whole at its place.
pub fn a_file_has_its_pieces()
    ensures { (m : MachineData) → IsMachine m → HasItsPieces (file_of m) m }
{}

/// The law that the shut gate byte alone is a file under way, of each machine.
#[tactic(auto, using(crate::proofs::UnderWay::begins))]
pub fn a_file_under_way_begins()
    ensures { (m : MachineData) → IsLaidSoFar (0 ∷ []) m [] }
{}

/// The law that a file under way stays one when a piece of the machine's file is written at its place, behind the
/// gate byte.
pub fn a_piece_more()
    ensures { (file bytes : List ℕ) (m : MachineData) (ranges : List (ℕ × ℕ)) (at : ℕ) → IsLaidSoFar file m ranges → 0 < at → 0 < length bytes → StandsAt (file_of m) at bytes → IsLaidSoFar (written at bytes file) m ((at, length bytes) ∷ ranges) }
{}

/// The law that the range of a piece covers it, also where the piece begins with the gate byte and the range behind it,
/// and that what is covered stays so.
#[tactic(auto, using(crate::proofs::UnderWay::covers_here, crate::proofs::UnderWay::covers_behind_gate, crate::proofs::UnderWay::covers_still))]
pub fn a_range_covers_its_piece()
    ensures here { (ranges : List (ℕ × ℕ)) (at n : ℕ) → Covers ((at, n) ∷ ranges) at n }
    ensures behind_gate { (ranges : List (ℕ × ℕ)) (n : ℕ) → Covers ((1, n) ∷ ranges) 0 (1 + n) }
    ensures still { (ranges : List (ℕ × ℕ)) (range : ℕ × ℕ) (at n : ℕ) → Covers ranges at n → Covers (range ∷ ranges) at n }
{}

/// The law that a file under way which has all pieces is the machine's file but for the gate byte.
pub fn a_file_is_whole()
    ensures { (m : MachineData) → IsMachine m → (file : List ℕ) (ranges : List (ℕ × ℕ)) → IsLaidSoFar file m ranges → CoversFile ranges m → IsShutFile file m }
{}

/// The law that a layout begins with the open gate byte and has more, so a file whose gate is shut is one of no machine.
#[tactic(auto, using(crate::proofs::UnderWay::open_layout, crate::proofs::UnderWay::shut_file))]
pub fn a_shut_file_is_a_layout_of_no_machine()
    ensures open { (file : List ℕ) (m : MachineData) → Lay file m → (slice_get file 0 ≡ Some GATE) × (1 < length file) }
    ensures shut { (file : List ℕ) (m : MachineData) → slice_get file 0 ≡ Some 0 → ¬ Lay file m }
{}
