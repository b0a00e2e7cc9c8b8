use medium::{FailPlan, MemMedium};
use snapshot_by_hand::{SMALLEST, Snapshot, file_of};
use std::alloc::Global;
use std::test::Fail;

/// Two instructions: auipc x5, 1 and sd x5, 0(x5).
pub(crate) const GUEST: [u8; 8] = [0x97, 0x12, 0, 0, 0x23, 0xb0, 0x52, 0];

/// The guest at boot in two pages, of which the second is all zeros.
pub(crate) const TWO_PAGES: Snapshot<'static> = Snapshot {
    pages: 2,
    saved: &[(0, &GUEST)],
    ..SMALLEST
};

/// The first bytes of the file of a snapshot. Its calls from this number on fail.
pub(crate) fn front(
    alloc: Global,
    snapshot: &Snapshot,
    len: usize,
    from: u64,
) -> Result<MemMedium, Fail> {
    let mut bytes = file_of(alloc, snapshot)?;
    bytes.truncate(len);
    let plan = FailPlan {
        calls: Vec::new(alloc),
        from: Some(from),
    };
    let room = bytes.len() as u64;
    Ok(MemMedium::new(alloc, bytes, room, 0, plan)?)
}

/// The whole file, of which no call fails.
pub(crate) fn whole(alloc: Global, snapshot: &Snapshot) -> Result<MemMedium, Fail> {
    front(alloc, snapshot, usize::MAX, u64::MAX)
}
