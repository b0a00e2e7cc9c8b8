ghost use Rattle.std.specs.Prelude.{◌≡◌, ◌⊎◌, ℕ, ◌<◌, ◌^◌, List, All, IsSome, None, Ok};
ghost use Rattle.flat_machine.specs.Machine.{MachineData};
ghost use Rattle.file_plan.specs.Layout.{Lay};
ghost use Rattle.loader.specs.Loaded.{IsLoaded, loaded, refusal};

use file_plan::a_file_is_a_layout_of_one_machine;

/// The law that each file either is a layout of a machine, which is the one that is loaded of it, or has a refusal, and
/// never both.
pub fn a_file_is_loaded_or_refused()
    ensures layout { (file : List ℕ) (m : MachineData) → Lay file m → loaded file ≡ Ok m }
    ensures never_both { (file : List ℕ) (m : MachineData) → Lay file m → refusal file ≡ None }
    ensures either { (file : List ℕ) → All (λ b. b < 2 ^ 8) file → IsLoaded file ⊎ IsSome (refusal file) }
{
    a_file_is_a_layout_of_one_machine();
}
