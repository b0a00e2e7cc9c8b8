ghost use Rattle.std.specs.Prelude.{◌≡◌, ◌≢◌, ◌⊎◌, ℕ, ◌<◌, ◌^◌, List, All, IsSome, None, Some, Ok};
ghost use Rattle.flat_machine.specs.Machine.{IsMachine, MachineData, Rest};
ghost use Rattle.snap_layer.specs.Layer.{Joined, layer_of};
ghost use Rattle.snap_layer.specs.Reading.{IsJoined, joined_in, refusal};
ghost use Rattle.snap_layer.specs.declared.refusal.LayerRefusal.TheVariants.{Late};

/// The law that the layer of a machine at rest over a base of the same shape joins with this base to the machine.
pub fn a_layer_is_joined_back()
    ensures { (base m : MachineData) → IsMachine base → IsMachine m → Rest m → m.shape ≡ base.shape → joined_in base (layer_of base m) ≡ Ok m }
{}

/// The law that base and layer either join to one machine, which is the one that is read, or have a refusal, and never
/// both. No refusal is `Late`.
pub fn a_layer_is_joined_or_refused()
    ensures reads { (base m : MachineData) (layer : List ℕ) → IsMachine base → Joined base layer m → joined_in base layer ≡ Ok m }
    ensures never_both { (base m : MachineData) (layer : List ℕ) → IsMachine base → Joined base layer m → refusal base layer ≡ None }
    ensures either { (base : MachineData) (layer : List ℕ) → IsMachine base → All (λ b. b < 2 ^ 8) layer → IsJoined base layer ⊎ IsSome (refusal base layer) }
    ensures never_late { (base : MachineData) (layer : List ℕ) (clock : ℕ) → refusal base layer ≢ Some (Late clock) }
{}
