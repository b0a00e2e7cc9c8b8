ghost use Rattle.std.specs.Prelude.{◌≡◌, ℕ, List, [], None, Ok, Some};
ghost use Rattle.file_plan.specs.Layout.{file_of};
ghost use Rattle.flat_machine.specs.Machine.{IsMachine, MachineData, Rest};
ghost use Rattle.loader.specs.Loaded.{loaded};
ghost use Rattle.medium.specs.Members.{file_state};
ghost use Rattle.medium.specs.States.{SinkState, SourceState};
ghost use Rattle.ram_block.specs.Shape.{ShapeData};
ghost use Rattle.vm_cli.specs.Jobs.Replay.{replay_steps};
ghost use Rattle.snap_layer.specs.Layer.{Joined, layer_of};
ghost use Rattle.vm_cli.specs.Jobs.Save.{WritesInstant};
ghost use Rattle.vm_cli.specs.Outside.{End, outside_of};
ghost use Rattle.vm_cli.specs.Replayed.{LeavesToReplay, PrintsTheSame, ReplaysWell};
ghost use Rattle.vm_cli.specs.Steps.{called_for};

use file_plan::file_of_is_a_layout;
use loader::a_file_is_loaded_or_refused;
use medium::Medium;

/// The law that the loader gives back each machine at rest of its file.
pub(crate) fn a_saved_machine_loads_back()
    ensures { (m : MachineData) → IsMachine m → Rest m → loaded (file_of m) ≡ Ok m }
{
    file_of_is_a_layout();
    a_file_is_loaded_or_refused();
}

/// The law that the file of a save depends on its instant alone: two complete saves of one instant into empty files leave
/// the same bytes, whatever machines were booted, and whatever phases, turns and seeds they had.
#[tactic(auto, using(crate::proofs::Saves::one_file))]
pub fn two_saves_of_one_instant_are_one_file<M: Medium>(
    _before: &M,
    _after: &M,
    _other_before: &M,
    _other_after: &M,
)
    ensures { (i : MachineData) → WritesInstant i (file_state M.Readable _before.now) (file_state M.Readable _after.now)
        → WritesInstant i (file_state M.Readable _other_before.now) (file_state M.Readable _other_after.now)
        → M.told _before.now ≡ Some [] → M.told _other_before.now ≡ Some [] → M.told _after.now ≡ M.told _other_after.now }
{}

/// The law that a replay of what a record wrote makes the same events and prints the record's report, byte for byte; and that
/// nothing calls for another end of it. The files are the record's input, its output before and after, the replay's input before
/// and after, and the replay's output.
pub fn a_replay_of_a_record_prints_its_report<M: Medium>(
    _input: &M,
    _before: &M,
    _after: &M,
    _order: &M,
    _order_after: &M,
    _output: &M,
)
    ensures same_order { (shape : ShapeData) (n : ℕ) (serial : List ℕ) (image : SourceState) (image_now : SourceState) (other : SourceState) (other_now : SourceState)
        (console : SinkState) (console_now : SinkState) (printed : SinkState) (printed_now : SinkState) (end : End) (replayed : End)
        → LeavesToReplay shape n serial (outside_of image (file_state M.Readable _input.now) (file_state M.Readable _before.now) console)
        (outside_of image_now (file_state M.Readable _input.now) (file_state M.Readable _after.now) console_now)
        (outside_of other (file_state M.Readable _order.now) (file_state M.Readable _output.now) printed) end
        → ReplaysWell shape serial (outside_of other (file_state M.Readable _order.now) (file_state M.Readable _output.now) printed)
        (outside_of other_now (file_state M.Readable _order_after.now) (file_state M.Readable _output.now) printed_now) replayed
        → replayed.first ≡ end.first }
    ensures same_report { (shape : ShapeData) (n : ℕ) (serial : List ℕ) (image : SourceState) (image_now : SourceState) (other : SourceState) (other_now : SourceState)
        (console : SinkState) (console_now : SinkState) (printed : SinkState) (printed_now : SinkState) (end : End) (replayed : End)
        → LeavesToReplay shape n serial (outside_of image (file_state M.Readable _input.now) (file_state M.Readable _before.now) console)
        (outside_of image_now (file_state M.Readable _input.now) (file_state M.Readable _after.now) console_now)
        (outside_of other (file_state M.Readable _order.now) (file_state M.Readable _output.now) printed) end
        → ReplaysWell shape serial (outside_of other (file_state M.Readable _order.now) (file_state M.Readable _output.now) printed)
        (outside_of other_now (file_state M.Readable _order_after.now) (file_state M.Readable _output.now) printed_now) replayed
        → PrintsTheSame console console_now printed printed_now }
    ensures no_other_end { (shape : ShapeData) (n : ℕ) (serial : List ℕ) (image : SourceState) (image_now : SourceState) (other : SourceState)
        (console : SinkState) (console_now : SinkState) (printed : SinkState) (end : End)
        → LeavesToReplay shape n serial (outside_of image (file_state M.Readable _input.now) (file_state M.Readable _before.now) console)
        (outside_of image_now (file_state M.Readable _input.now) (file_state M.Readable _after.now) console_now)
        (outside_of other (file_state M.Readable _order.now) (file_state M.Readable _output.now) printed) end
        → called_for (replay_steps shape serial other (file_state M.Readable _order.now)) ≡ Some None }
{}

/// The law that a base joined with the layer of a machine over it gives the file of a save of that machine: a complete save of
/// what they join to, and one of the machine, both into empty files, leave the same bytes.
pub fn a_base_joined_with_a_layer_is_the_file_of_a_save<M: Medium>(
    _before: &M,
    _after: &M,
    _other_before: &M,
    _other_after: &M,
)
    ensures { (base m i : MachineData) → IsMachine base → IsMachine i → Rest i → i.shape ≡ base.shape → Joined base (layer_of base i) m
        → WritesInstant m (file_state M.Readable _before.now) (file_state M.Readable _after.now)
        → WritesInstant i (file_state M.Readable _other_before.now) (file_state M.Readable _other_after.now)
        → M.told _before.now ≡ Some [] → M.told _other_before.now ≡ Some [] → M.told _after.now ≡ M.told _other_after.now }
{}
