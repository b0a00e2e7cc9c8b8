ghost use Rattle.std.specs.Prelude.{◌≡◌, ◌<◌, length, None, OnErr, OnOk, is_ok};
ghost use Rattle.medium.specs.Members.{file_state};
ghost use Rattle.file_plan.specs.Plan.{head_len_of};
ghost use Rattle.bg_saver.specs.Saver.{IsSaver};
ghost use Rattle.bg_saver.specs.Steps.{AllGoWell, IsCutShort, LeavesCall, finish_calls, head_call, head_calls};
ghost use Rattle.bg_saver.specs.Turn.{LeavesFinish};
ghost use Rattle.bg_saver.specs.declared.save_end.SaveEnd.{SaveEnd as end_of_save};

use crate::progress::Progress;
use crate::{SaveEnd, Turn};
use file_plan::GATE;
use medium::{Failed, Medium};

/// Writes what the file has beside the pages, opens its gate, and ends the save.
pub(crate) fn finish<M: Medium>(progress: &mut Progress, head: &mut [u8], medium: &mut M) -> Turn
    requires runs { progress.old.end ≡ None }
    requires head { length head.old ≡ head_len_of progress.old.shape.pages 0 }
    ensures ended { (end : end_of_save) × LeavesFinish M.Readable progress.old medium.old medium.new end result progress.new }
    ensures limits { IsSaver progress.new }
{
    let end = match write_rest(progress, head, medium) {
        Ok(()) => SaveEnd::Complete,
        Err(_) => SaveEnd::Failed,
    };
    progress.end_with(end);
    Turn::at_end(end)
}

// Writes the heads and the tail, and once they stand the gate.
fn write_rest<M: Medium>(progress: &Progress, head: &mut [u8], medium: &mut M) -> Result<(), Failed>
    requires head { length head.old ≡ head_len_of progress.now.shape.pages 0 }
    ensures all { OnOk result (AllGoWell M.Readable (finish_calls progress.now) medium.old medium.new) }
    ensures cut { OnErr result (IsCutShort M.Readable (finish_calls progress.now) medium.old medium.new) }
{
    write_heads(progress, head, medium)?;
    medium.write_at(progress.plan().tail_at(), progress.tail())?;
    medium.sync()?;
    medium.write_at(0, &[GATE])?;
    medium.sync()?;
    Ok(())
}

// Writes the head pieces of all blocks, in order.
fn write_heads<M: Medium>(
    progress: &Progress,
    head: &mut [u8],
    medium: &mut M,
) -> Result<(), Failed>
    requires head { length head.old ≡ head_len_of progress.now.shape.pages 0 }
    ensures all { OnOk result (AllGoWell M.Readable (head_calls progress.now progress.now.shape.blocks) medium.old medium.new) }
    ensures cut { OnErr result (IsCutShort M.Readable (head_calls progress.now progress.now.shape.blocks) medium.old medium.new) }
{
    for block in 0..progress.blocks() {
        write_head(progress, head, medium, block)?;
    }
    Ok(())
}

// Writes the head piece of a block, of the first one without the gate byte.
fn write_head<M: Medium>(
    progress: &Progress,
    head: &mut [u8],
    medium: &mut M,
    block: u32,
) -> Result<(), Failed>
    requires head { length head.old ≡ head_len_of progress.now.shape.pages 0 }
    requires block { block < progress.now.shape.blocks }
    ensures written { LeavesCall (head_call progress.now block) (is_ok result) (file_state M.Readable medium.old) (file_state M.Readable medium.new) }
{
    let plan = progress.plan();
    let piece = &mut head[..plan.head_len(block)];
    progress.put_head(block, piece);
    if block == 0 {
        medium.write_at(1, &piece[1..])
    } else {
        medium.write_at(plan.head_at(block), piece)
    }
}
