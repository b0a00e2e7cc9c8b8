ghost use Rattle.std.specs.Prelude.{◌≡◌, ℕ, List};
ghost use Rattle.flat_machine.specs.Machine.{IsMachine, MachineData, Rest};
ghost use Rattle.file_plan.specs.Layout.{Lay, file_of};

/// The law that a file is a layout of one machine at most.
#[tactic(auto, using(crate::proofs::OneMachine::one_machine))]
pub fn a_file_is_a_layout_of_one_machine()
    ensures { (file : List ℕ) (m n : MachineData) → Lay file m → Lay file n → m ≡ n }
{}

/// The law that the file which a save writes is a layout of its machine, piece by piece, where the machine is at
/// rest.
#[tactic(auto, using(crate::proofs::AnyFile::file_of_lays))]
pub fn file_of_is_a_layout()
    ensures { (m : MachineData) → IsMachine m → Rest m → Lay (file_of m) m }
{}

/// The law that two machines at rest which have one file are one.
#[tactic(auto, using(crate::proofs::OneFile::one_file))]
pub fn a_file_tells_its_machine()
    ensures { (m n : MachineData) → IsMachine m → Rest m → IsMachine n → Rest n → file_of m ≡ file_of n → m ≡ n }
{}
