ghost use Rattle.std.specs.Prelude.{◌≡◌, ◌⊎◌, ◌<◌, ◌^◌};
ghost use Rattle.rv64i_step.specs.Access.{low_bytes};
ghost use Rattle.rv64i_step.specs.Amo.{amo_written};
ghost use Rattle.ram_block.specs.declared.place.Width.TheVariants.{Four, Eight};

use ram_block::Width;
use rv64i_decode::AmoOp;

/// What an AMO writes back, of the value that it found and the one in rs2. Both are of its width, which is
/// four bytes or eight, and so is the answer.
pub fn amo_result(op: AmoOp, width: Width, found: u64, value: u64) -> u64
    requires width { (width ≡ Four) ⊎ (width ≡ Eight) }
    requires found { found ≡ low_bytes width found }
    requires value { value ≡ low_bytes width value }
    ensures written { result ≡ amo_written op width found value }
    ensures fits { result ≡ low_bytes width result }
{
    match width {
        Width::Eight => wide_result(op, found, value),
        _ => u64::from(word_result(op, found as u32, value as u32)),
    }
}

#[tactic(auto, unfolding(crate::specs::Amo::amo_written))]
fn wide_result(op: AmoOp, found: u64, value: u64) -> u64
    ensures { result ≡ amo_written op Eight found value }
{
    match op {
        AmoOp::Add => found.wrapping_add(value),
        AmoOp::Swap => value,
        AmoOp::Xor => found ^ value,
        AmoOp::Or => found | value,
        AmoOp::And => found & value,
        AmoOp::Min => found.cast_signed().min(value.cast_signed()).cast_unsigned(),
        AmoOp::Max => found.cast_signed().max(value.cast_signed()).cast_unsigned(),
        AmoOp::Minu => found.min(value),
        AmoOp::Maxu => found.max(value),
    }
}

#[tactic(auto, unfolding(crate::specs::Amo::amo_written))]
fn word_result(op: AmoOp, found: u32, value: u32) -> u32
    ensures { result ≡ amo_written op Four found value }
{
    match op {
        AmoOp::Add => found.wrapping_add(value),
        AmoOp::Swap => value,
        AmoOp::Xor => found ^ value,
        AmoOp::Or => found | value,
        AmoOp::And => found & value,
        AmoOp::Min => found.cast_signed().min(value.cast_signed()).cast_unsigned(),
        AmoOp::Max => found.cast_signed().max(value.cast_signed()).cast_unsigned(),
        AmoOp::Minu => found.min(value),
        AmoOp::Maxu => found.max(value),
    }
}
