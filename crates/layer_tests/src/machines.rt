use flat_machine::Machine;
use ram_block::Shape;
use snap_layer::{LayerFault, join_layer, put_layer};
use std::alloc::Global;
use std::test::Fail;

/// auipc x5, 1, sd x5, 0(x5), sd x5, -8(x5), auipc x6, 3, sw x6, 0(x6) and sw x6, -16(x6): it stores into the pages 1, 0, 3
/// and 2.
const STORES: [u8; 24] = [
    0x97, 0x12, 0, 0, 0x23, 0xb0, 0x52, 0, 0x23, 0xbc, 0x52, 0xfe, 0x17, 0x33, 0, 0, 0x23, 0x20,
    0x63, 0, 0x23, 0x28, 0x63, 0xfe,
];

/// Machines of other shapes, one that isn't at rest, or too long a phase.
#[derive(Debug, Drop)]
struct OutOfLimits;

/// A machine of so many vCPUs, blocks and pages in each, whose vCPUs have each run so many instructions of the guest that
/// stores.
pub(crate) fn ran(
    alloc: Global,
    sizes: (u64, u64, u64),
    instructions: u32,
) -> Result<Machine, Fail> {
    let shape = Shape::new(sizes.0, sizes.1, sizes.2)?;
    let mut machine = Machine::boot(alloc, shape, &STORES, &[])?;
    if instructions > 1_000_000 {
        Err(OutOfLimits)?;
    }
    let _order = machine.rounds(alloc, instructions)?;
    Ok(machine)
}

/// The layer of one machine over another.
pub(crate) fn layer_of(alloc: Global, base: &Machine, now: &Machine) -> Result<Vec<u8>, Fail> {
    if base.shape() != now.shape() || !now.at_rest() {
        Err(OutOfLimits)?;
    }
    Ok(put_layer(alloc, base, now)?)
}

/// The machine to which base and layer join, or why there is none.
pub(crate) fn joined(
    alloc: Global,
    base: &Machine,
    layer: &[u8],
) -> Result<Result<Machine, LayerFault>, Fail> {
    Ok(join_layer(alloc, base.copy(alloc)?, layer.to_vec(alloc)?))
}
