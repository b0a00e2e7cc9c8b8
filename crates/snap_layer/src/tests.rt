use super::*;
use crate::format::{BLOCKS_AT, CLOCK_AT, COUNT_AT, PAGES_AT, SUM_AT};
use flat_machine::Machine;
use ram_block::Shape;
use std::alloc::Global;
use std::test::Fail;

// auipc x5, 1 and sd x5, 0(x5): the guest stores the place of its second page there.
const STORES: [u8; 8] = [0x97, 0x12, 0, 0, 0x23, 0xb0, 0x52, 0];

// The machines have other shapes, or one isn't at rest.
#[derive(Debug, Drop)]
struct OutOfLimits;

// A machine of two pages after so many instructions of this guest.
fn after(alloc: Global, instructions: u32) -> Result<Machine, Fail> {
    let mut machine = Machine::boot(alloc, Shape::new(1, 1, 2)?, &STORES, &[])?;
    if instructions > 1_000_000 || !machine.at_rest() {
        Err(OutOfLimits)?;
    }
    let _order = machine.rounds(alloc, instructions)?;
    Ok(machine)
}

// The layer of one machine over another.
fn layer_of(alloc: Global, base: &Machine, now: &Machine) -> Result<Vec<u8>, Fail> {
    if base.shape() != now.shape() || !now.at_rest() {
        Err(OutOfLimits)?;
    }
    Ok(put_layer(alloc, base, now)?)
}

// The layer of the machine after so many instructions over the one before the first.
fn layer_after(alloc: Global, instructions: u32) -> Result<Vec<u8>, Fail> {
    let base = after(alloc, 0)?;
    let now = after(alloc, instructions)?;
    layer_of(alloc, &base, &now)
}

// How long the layer of this machine is over the one to which its layer joins the base.
fn len_of_the_rest(alloc: Global, instructions: u32) -> Result<Option<usize>, Fail> {
    let now = after(alloc, instructions)?;
    let layer = layer_after(alloc, instructions)?;
    match join_layer(alloc, after(alloc, 0)?, layer) {
        Ok(joined) => Ok(Some(layer_of(alloc, &joined, &now)?.len())),
        Err(_) => Ok(None),
    }
}

// Why the machine before the first instruction joins with these bytes to none.
fn fault_of(alloc: Global, layer: Vec<u8>) -> Result<Option<LayerFault>, Fail> {
    Ok(join_layer(alloc, after(alloc, 0)?, layer).err())
}

#[test]
fn the_numbers_of_the_format_are_these(rt: HostRuntime) {
    assert_eq!(rt; (MAGIC, VERSION), (0x5256_4c59, 1));
    assert_eq!(rt; (BLOCKS_AT, PAGES_AT, CLOCK_AT), (8, 12, 16));
    assert_eq!(rt; (SUM_AT, COUNT_AT), (24, 32));
    assert_eq!(rt; (FRONT_LEN, ENTRY_LEN), (36, 4100));
}

#[test]
fn the_page_that_was_stored_to_is_the_layer(rt: HostRuntime) -> Result<(), Fail> {
    let alloc = rt.alloc();
    let layer = layer_after(alloc, 2)?;
    assert_eq!(rt; layer.len(), 4505);
    let front = [0x52, 0x56, 0x4c, 0x59, 0, 0, 0, 1, 0, 0, 0, 1, 0, 0, 0, 2];
    assert_eq!(rt; &layer[..16], front.as_slice());
    let base = [
        0, 0, 0, 0, 0, 0, 0, 0, 0, 0x52, 0xb0, 0x23, 0, 0, 0x12, 0x97,
    ];
    assert_eq!(rt; &layer[16..32], base.as_slice());
    let page = [0, 0, 0, 1, 0, 0, 0, 1, 0, 0x10, 0, 0x80, 0, 0, 0, 0];
    assert_eq!(rt; &layer[32..48], page.as_slice());
    Ok(())
}

#[test]
fn a_machine_that_stored_nothing_has_a_layer_of_no_page(rt: HostRuntime) -> Result<(), Fail> {
    let alloc = rt.alloc();
    let layer = layer_after(alloc, 1)?;
    assert_eq!(rt; layer.len(), 405);
    assert_eq!(rt; &layer[32..41], [0, 0, 0, 0, 4, 0, 0, 0, 3].as_slice());
    Ok(())
}

#[test]
fn base_and_layer_join_to_the_machine(rt: HostRuntime) -> Result<(), Fail> {
    let alloc = rt.alloc();
    assert_eq!(rt; len_of_the_rest(alloc, 2)?, Some(405));
    Ok(())
}

#[test]
fn an_empty_layer_is_cut_at_its_first_piece(rt: HostRuntime) -> Result<(), Fail> {
    let alloc = rt.alloc();
    let fault = fault_of(alloc, Vec::new(alloc))?;
    let wanted = LayerFault::Refused(LayerRefusal::Truncated { at: 0 });
    assert!(rt; fault == Some(wanted));
    Ok(())
}
