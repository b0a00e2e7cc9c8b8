use crate::bytes::{filled, layer};
use crate::machines::{joined, ran};
use device_state::DeviceFault;
use flat_machine::Machine;
use snap_layer::{LayerFault, LayerRefusal};
use std::alloc::Global;
use std::test::Fail;

/// Whether a base joins with these bytes to no machine, for this refusal.
fn is_refused(
    alloc: Global,
    base: &Machine,
    layer: &[u8],
    refusal: LayerRefusal,
) -> Result<bool, Fail> {
    let fault = joined(alloc, base, layer)?.err();
    Ok(fault == Some(LayerFault::Refused(refusal)))
}

/// Where the pieces of the layer end, each of which begins where the one before ends.
const ENDS: [usize; 29] = [
    4, 8, 12, 16, 24, 32, 36, 40, 4136, 4140, 8236, 8242, 8253, 8518, 8523, 8529, 8540, 8805, 8810,
    8816, 8830, 8846, 8848, 8851, 8856, 8875, 8891, 8896, 8897,
];

#[test]
fn a_cut_layer_is_refused_at_the_piece_that_is_cut(rt: HostRuntime) -> Result<(), Fail> {
    let alloc = rt.alloc();
    let base = ran(alloc, (2, 1, 3), 1)?;
    let whole = layer(alloc)?;
    let mut start = 0usize;
    for next in ENDS {
        let at = start as u64;
        let last = next.saturating_sub(1);
        for cut in [start, last.min(start.saturating_add(1)), last] {
            let front = whole.get(..cut).unwrap_or(&whole);
            let refused = is_refused(alloc, &base, front, LayerRefusal::Truncated { at })?;
            assert!(rt; refused, "{cut} bytes");
        }
        start = next;
    }
    Ok(())
}

/// A place of the layer, how many bytes are changed from there on, the byte that each of them is then, and the refusal.
type Wrong = (usize, usize, u8, LayerRefusal);

#[rattlefmt::skip]
static WRONG: [Wrong; 70] = [
    (0, 1, b'S', LayerRefusal::Magic(0x5356_4c59)),
    (3, 1, b'X', LayerRefusal::Magic(0x5256_4c58)),
    (0, 8, 0xff, LayerRefusal::Magic(0xffff_ffff)),
    (7, 1, 2, LayerRefusal::Version(2)),
    (4, 1, 1, LayerRefusal::Version(0x0100_0001)),
    (4, 8, 0, LayerRefusal::Version(0)),
    (11, 1, 2, LayerRefusal::Shape { at: 8, v: 2 }),
    (8, 1, 1, LayerRefusal::Shape { at: 8, v: 0x0100_0001 }),
    (8, 8, 0, LayerRefusal::Shape { at: 8, v: 0 }),
    (15, 1, 2, LayerRefusal::Shape { at: 12, v: 2 }),
    (15, 1, 4, LayerRefusal::Shape { at: 12, v: 4 }),
    (12, 12, 0, LayerRefusal::Shape { at: 12, v: 0 }),
    (23, 1, 1, LayerRefusal::Base { at: 16, v: 1 }),
    (23, 1, 3, LayerRefusal::Base { at: 16, v: 3 }),
    (16, 16, 0, LayerRefusal::Base { at: 16, v: 0 }),
    (31, 1, 0xdc, LayerRefusal::Base { at: 24, v: 0xfeb6_0b5d_feb5_eedc }),
    (31, 1, 0xde, LayerRefusal::Base { at: 24, v: 0xfeb6_0b5d_feb5_eede }),
    (24, 12, 0, LayerRefusal::Base { at: 24, v: 0 }),
    (35, 1, 4, LayerRefusal::Count(4)),
    (32, 8, 0xff, LayerRefusal::Count(0xffff_ffff)),
    (35, 1, 3, LayerRefusal::Page { at: 8236, v: 0x0400_0000 }),
    (35, 1, 1, LayerRefusal::Section { at: 4136, found: 0 }),
    (35, 1, 0, LayerRefusal::Section { at: 36, found: 0 }),
    (39, 1, 2, LayerRefusal::Page { at: 4136, v: 2 }),
    (39, 1, 3, LayerRefusal::Page { at: 36, v: 3 }),
    (36, 1, 1, LayerRefusal::Page { at: 36, v: 0x0100_0001 }),
    (4139, 1, 1, LayerRefusal::Page { at: 4136, v: 1 }),
    (4139, 1, 0, LayerRefusal::Page { at: 4136, v: 0 }),
    (4139, 1, 3, LayerRefusal::Page { at: 4136, v: 3 }),
    (4136, 4, 0xff, LayerRefusal::Page { at: 4136, v: 0xffff_ffff }),
    (8236, 1, 0, LayerRefusal::Section { at: 8236, found: 0 }),
    (8240, 1, 4, LayerRefusal::Section { at: 8240, found: 4 }),
    (8241, 1, 6, LayerRefusal::Section { at: 8241, found: 6 }),
    (8242, 1, b'C', LayerRefusal::Section { at: 8242, found: b'C' }),
    (8248, 1, 1, LayerRefusal::Section { at: 8248, found: 1 }),
    (8252, 1, 2, LayerRefusal::Section { at: 8252, found: 2 }),
    (8509, 9, 0x41, LayerRefusal::Device { at: 8509, fault: DeviceFault::Steps(0x4141_4141_4141_4141) }),
    (8517, 1, 11, LayerRefusal::Device { at: 8517, fault: DeviceFault::State(11) }),
    (8517, 2, 0xff, LayerRefusal::Device { at: 8517, fault: DeviceFault::State(0xff) }),
    (8518, 1, 0, LayerRefusal::Footer { at: 8518, found: 0 }),
    (8522, 1, 4, LayerRefusal::Footer { at: 8522, found: 4 }),
    (8527, 1, 3, LayerRefusal::Section { at: 8527, found: 3 }),
    (8528, 1, 0, LayerRefusal::Section { at: 8528, found: 0 }),
    (8528, 1, 6, LayerRefusal::Section { at: 8529, found: b'c' }),
    (8535, 1, 0, LayerRefusal::Section { at: 8535, found: 0 }),
    (8796, 1, 0x40, LayerRefusal::Device { at: 8796, fault: DeviceFault::Steps(0x4000_0000_0000_0001) }),
    (8804, 1, 11, LayerRefusal::Device { at: 8804, fault: DeviceFault::State(11) }),
    (8809, 1, 3, LayerRefusal::Footer { at: 8809, found: 3 }),
    (8814, 1, 6, LayerRefusal::Section { at: 8814, found: 6 }),
    (8815, 1, 5, LayerRefusal::Section { at: 8815, found: 5 }),
    (8815, 1, 3, LayerRefusal::Section { at: 8816, found: b's' }),
    (8825, 1, 1, LayerRefusal::Section { at: 8825, found: 1 }),
    (8829, 1, 0, LayerRefusal::Section { at: 8829, found: 0 }),
    (8829, 1, 3, LayerRefusal::Section { at: 8829, found: 3 }),
    (8829, 1, 1, LayerRefusal::Footer { at: 8844, found: 0 }),
    (8838, 8, 0xff, LayerRefusal::Device { at: 8838, fault: DeviceFault::SerialLength(0xffff_ffff) }),
    (8839, 1, 1, LayerRefusal::Device { at: 8838, fault: DeviceFault::SerialLength(0x0001_0002) }),
    (8840, 1, 1, LayerRefusal::Truncated { at: 8846 }),
    (8841, 1, 1, LayerRefusal::Footer { at: 8850, found: b's' }),
    (8844, 1, 0x10, LayerRefusal::Device { at: 8842, fault: DeviceFault::InputLength(0x1003) }),
    (8844, 1, 1, LayerRefusal::Truncated { at: 8848 }),
    (8851, 1, 0x7f, LayerRefusal::Footer { at: 8851, found: 0x7f }),
    (8855, 1, 6, LayerRefusal::Footer { at: 8855, found: 6 }),
    (8860, 1, 5, LayerRefusal::Section { at: 8860, found: 5 }),
    (8870, 1, 1, LayerRefusal::Section { at: 8870, found: 1 }),
    (8874, 1, 2, LayerRefusal::Section { at: 8874, found: 2 }),
    (8875, 1, 0x41, LayerRefusal::Device { at: 8875, fault: DeviceFault::Clock(0x4100_0000_0000_0000) }),
    (8891, 1, 0, LayerRefusal::Footer { at: 8891, found: 0 }),
    (8895, 1, 5, LayerRefusal::Footer { at: 8895, found: 5 }),
    (8896, 1, 4, LayerRefusal::Section { at: 8896, found: 4 }),
];

/// The first row, by number, whose layer isn't refused so.
fn first_not_refused(alloc: Global, base: &Machine, rows: &[Wrong]) -> Result<Option<usize>, Fail> {
    for (i, (at, len, byte, refusal)) in rows.iter().enumerate() {
        let wrong = filled(alloc, *at, *len, *byte)?;
        if !is_refused(alloc, base, &wrong, *refusal)? {
            return Ok(Some(i));
        }
    }
    Ok(None)
}

#[test]
fn the_first_wrong_piece_refuses_a_layer(rt: HostRuntime) -> Result<(), Fail> {
    let alloc = rt.alloc();
    let base = ran(alloc, (2, 1, 3), 1)?;
    assert_eq!(rt; first_not_refused(alloc, &base, &WRONG)?, None);
    Ok(())
}

/// How many vCPUs the base has, how many bytes more the layer, and the refusal.
#[rattlefmt::skip]
static VCPUS: [(u8, usize, LayerRefusal); 6] = [
    (1, 0, LayerRefusal::Vcpus(2)),
    (3, 0, LayerRefusal::Vcpus(2)),
    (8, 0, LayerRefusal::Vcpus(2)),
    (1, 1, LayerRefusal::Vcpus(2)),
    (2, 1, LayerRefusal::Trailing { at: 8897 }),
    (2, 2, LayerRefusal::Trailing { at: 8897 }),
];

/// Whether the layer, for the clock of a base of so many vCPUs and with so many bytes more, is refused so.
fn is_refused_over(
    alloc: Global,
    vcpus: u8,
    more: usize,
    refusal: LayerRefusal,
) -> Result<bool, Fail> {
    let base = ran(alloc, (u64::from(vcpus), 1, 3), 1)?;
    let mut longer = filled(alloc, 23, 1, vcpus)?;
    for _ in 0..more {
        longer.push(0)?;
    }
    is_refused(alloc, &base, &longer, refusal)
}

#[test]
fn another_number_of_vcpus_refuses_a_layer_before_what_follows_it(
    rt: HostRuntime,
) -> Result<(), Fail> {
    for (vcpus, more, refusal) in &VCPUS {
        let refused = is_refused_over(rt.alloc(), *vcpus, *more, *refusal)?;
        assert!(rt; refused, "{vcpus} vCPUs");
    }
    Ok(())
}
