use crate::bytes::{filled, replaced};
use crate::machines::{joined, layer_of, ran};
use flat_machine::Machine;
use std::alloc::Global;
use std::test::Fail;

/// The layer over a machine of that to which base and layer join. It has no byte where they join to none.
fn layer_back(
    alloc: Global,
    base: &Machine,
    layer: &[u8],
    over: &Machine,
) -> Result<Vec<u8>, Fail> {
    match joined(alloc, base, layer)? {
        Ok(machine) => layer_of(alloc, over, &machine),
        Err(_) => Ok(Vec::new(alloc)),
    }
}

/// Whether a layer of one vCPU has the pages with these numbers, and no byte behind its devices.
fn has_pages(layer: &[u8], numbers: &[u8]) -> bool {
    let len = numbers.len().saturating_mul(4100).saturating_add(405);
    let places = (39..layer.len()).step_by(4100);
    layer.len() == len
        && layer.get(35).map(|count| usize::from(*count)) == Some(numbers.len())
        && places
            .zip(numbers)
            .all(|(place, number)| layer.get(place) == Some(number))
}

/// Whether the layer of a machine over a base has the pages with these numbers, base and layer join to the machine, and the layer
/// of that is the same.
fn is_joined_back(
    alloc: Global,
    base: &Machine,
    now: &Machine,
    numbers: &[u8],
) -> Result<bool, Fail> {
    let layer = layer_of(alloc, base, now)?;
    Ok(
        has_pages(&layer, numbers)
            && layer_back(alloc, base, &layer, base)? == layer
            && has_pages(&layer_back(alloc, base, &layer, now)?, &[]),
    )
}

/// The blocks, the pages of each, how many instructions the base has run and how many the machine, and the numbers of the pages to
/// which it stored meanwhile.
#[rattlefmt::skip]
static RUNS: [(u64, u64, u32, u32, &[u8]); 11] = [
    (1, 2, 0, 0, &[]),
    (1, 2, 0, 2, &[1]),
    (1, 2, 0, 3, &[0, 1]),
    (1, 2, 2, 3, &[0]),
    (2, 1, 0, 0, &[]),
    (2, 1, 0, 3, &[0, 1]),
    (1, 4, 0, 6, &[0, 1, 2, 3]),
    (2, 2, 0, 6, &[0, 1, 2, 3]),
    (2, 2, 3, 6, &[2, 3]),
    (2, 2, 6, 6, &[]),
    (4, 1, 1, 5, &[0, 1, 3]),
];

/// Whether that holds of a base and a machine.
fn is_run_joined(
    alloc: Global,
    sizes: (u64, u64, u64),
    before: u32,
    behind: u32,
    numbers: &[u8],
) -> Result<bool, Fail> {
    let base = ran(alloc, sizes, before)?;
    let now = ran(alloc, sizes, behind)?;
    is_joined_back(alloc, &base, &now, numbers)
}

#[test]
fn base_and_layer_join_to_the_machine_that_stored(rt: HostRuntime) -> Result<(), Fail> {
    for (blocks, pages, before, behind, numbers) in &RUNS {
        let sizes = (1, *blocks, *pages);
        let same = is_run_joined(rt.alloc(), sizes, *before, *behind, numbers)?;
        assert!(rt; same, "{numbers:?}");
    }
    Ok(())
}

/// A place of the layer by hand, how many bytes are changed from there on, and the byte that each of them is then. None, and then
/// the most that a page, the registers, the steps and the state of a vCPU, lost, the clock and the timer may be.
#[rattlefmt::skip]
static MOST: [(usize, usize, u8); 8] = [
    (0, 0, 0),
    (40, 4096, 0xff),
    (8253, 256, 0xff),
    (8509, 1, 0x40),
    (8517, 1, 10),
    (8830, 8, 0xff),
    (8875, 1, 0x40),
    (8883, 8, 0xff),
];

/// Whether the layer that is filled so is that of the machine to which it joins with the base.
fn is_layer_back(
    alloc: Global,
    base: &Machine,
    (at, len, byte): (usize, usize, u8),
) -> Result<bool, Fail> {
    let layer = filled(alloc, at, len, byte)?;
    Ok(layer_back(alloc, base, &layer, base)? == layer)
}

#[test]
fn the_most_that_a_number_may_be_is_joined(rt: HostRuntime) -> Result<(), Fail> {
    let alloc = rt.alloc();
    let base = ran(alloc, (2, 1, 3), 1)?;
    for fill in &MOST {
        assert!(rt; is_layer_back(alloc, &base, *fill)?, "{fill:?}");
    }
    Ok(())
}

/// Whether base and layer join to a machine of which this is the layer.
fn is_written_as(
    alloc: Global,
    base: &Machine,
    layer: &[u8],
    written: &[u8],
) -> Result<bool, Fail> {
    Ok(layer_back(alloc, base, layer, base)?.as_slice() == written)
}

#[test]
fn a_page_that_the_base_has_too_is_joined_and_not_written(rt: HostRuntime) -> Result<(), Fail> {
    let alloc = rt.alloc();
    let base = ran(alloc, (2, 1, 3), 1)?;
    let layer = filled(alloc, 40, 15, 0)?;
    let written = replaced(alloc, 32, 4136, &[0, 0, 0, 1])?;
    assert!(rt; is_written_as(alloc, &base, &layer, &written)?);
    Ok(())
}

/// The serial device of the older version, which knows no input.
const OLDER: [u8; 15] = *b"\x01\0\0\0\0\0\0\x01\x09\0\0\0\x02hi";

#[test]
fn devices_of_the_older_version_are_joined_and_written_anew(rt: HostRuntime) -> Result<(), Fail> {
    let alloc = rt.alloc();
    let base = ran(alloc, (2, 1, 3), 1)?;
    let layer = replaced(alloc, 8829, 8851, &OLDER)?;
    let written = replaced(alloc, 8842, 8851, b"\0\0\0\0hi")?;
    assert!(rt; is_written_as(alloc, &base, &layer, &written)?);
    Ok(())
}
