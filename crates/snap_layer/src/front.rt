ghost use Rattle.std.specs.Prelude.{◌≡◌, ◌≤◌, IfOk};
ghost use Rattle.ram_block.specs.Shape.{total_pages_of};
ghost use Rattle.snap_layer.specs.Reading.{base_in, count_in, format_in, front_in, shape_in};

use crate::LayerRefusal;
use crate::format::{BLOCKS_AT, CLOCK_AT, COUNT_AT, MAGIC, PAGES_AT, SUM_AT, VERSION};
use crate::piece::{number32, number64};
use flat_machine::Machine;
use ram_block::Shape;

/// How many pages a layer of this base has, by all that stands before them.
#[tactic(auto, unfolding(crate::specs::Reading::front_in))]
pub(crate) fn read_front(layer: &[u8], base: &Machine) -> Result<u32, LayerRefusal>
    ensures answer { result ≡ front_in base.now layer.now }
    ensures most { IfOk result (λ count. count ≤ total_pages_of base.now.shape) }
{
    check_format(layer)?;
    check_shape(layer, base.shape())?;
    check_base(layer, base)?;
    read_count(layer, base.shape().total_pages())
}

// The magic and the version.
#[tactic(auto, unfolding(crate::specs::Reading::format_in))]
fn check_format(layer: &[u8]) -> Result<(), LayerRefusal>
    ensures { result ≡ format_in layer.now }
{
    let magic = number32(layer, 0)?;
    if magic != MAGIC {
        return Err(LayerRefusal::Magic(magic));
    }
    let version = number32(layer, 4)?;
    if version != VERSION {
        return Err(LayerRefusal::Version(version));
    }
    Ok(())
}

// The blocks and the pages of each.
#[tactic(auto, unfolding(crate::specs::Reading::shape_in))]
fn check_shape(layer: &[u8], shape: Shape) -> Result<(), LayerRefusal>
    ensures { result ≡ shape_in shape layer.now }
{
    let v = number32(layer, BLOCKS_AT)?;
    if v != shape.blocks() {
        let at = BLOCKS_AT as u64;
        return Err(LayerRefusal::Shape { at, v });
    }
    let v = number32(layer, PAGES_AT)?;
    if v != shape.pages() {
        let at = PAGES_AT as u64;
        return Err(LayerRefusal::Shape { at, v });
    }
    Ok(())
}

// The clock and the sum of RAM.
#[tactic(auto, unfolding(crate::specs::Reading::base_in))]
fn check_base(layer: &[u8], base: &Machine) -> Result<(), LayerRefusal>
    ensures { result ≡ base_in base.now layer.now }
{
    let v = number64(layer, CLOCK_AT)?;
    if v != base.clock() {
        let at = CLOCK_AT as u64;
        return Err(LayerRefusal::Base { at, v });
    }
    let v = number64(layer, SUM_AT)?;
    if v != base.ram_sum() {
        let at = SUM_AT as u64;
        return Err(LayerRefusal::Base { at, v });
    }
    Ok(())
}

// How many pages the layer has.
#[tactic(auto, unfolding(crate::specs::Reading::count_in))]
fn read_count(layer: &[u8], total: u32) -> Result<u32, LayerRefusal>
    ensures answer { result ≡ count_in total layer.now }
    ensures most { IfOk result (λ count. count ≤ total) }
{
    let count = number32(layer, COUNT_AT)?;
    if count > total {
        return Err(LayerRefusal::Count(count));
    }
    Ok(count)
}
