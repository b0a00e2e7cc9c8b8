use crate::save::cut_save;
use bg_saver::{Counts, SaveEnd};
use std::test::Fail;

/// How many bytes the file of one page has.
const WHOLE: u64 = 1_053_072;

/// What stands before each call of a save of one page, by the call's number: how many writes aren't synced, and how many
/// bytes there are. The calls are the length, the shut gate, a sync; the page, the head, the tail, a sync; the open gate and
/// a sync.
static BEFORE_EACH_CALL: [(u64, usize, usize); 9] = [
    (1, 0, 0),
    (2, 0, 0),
    (3, 1, 1),
    (4, 0, 1),
    (5, 1, 1_052_672),
    (6, 2, 1_052_672),
    (7, 3, 1_053_072),
    (8, 0, 1_053_072),
    (9, 1, 1_053_072),
];

#[test]
fn a_save_makes_nine_calls_in_the_order_of_the_writes(rt: HostRuntime) -> Result<(), Fail> {
    let alloc = rt.alloc();
    for (call, unsynced, len) in &BEFORE_EACH_CALL {
        let (file, _out) = cut_save(alloc, 1, WHOLE, *call)?;
        assert_eq!(rt; (file.unsynced(), file.bytes().len()), (*unsynced, *len));
    }
    let (file, _out) = cut_save(alloc, 1, WHOLE, 10)?;
    assert_eq!(rt; file.unsynced(), 0);
    Ok(())
}

#[test]
fn a_save_that_fails_ends_the_phase_too(rt: HostRuntime) -> Result<(), Fail> {
    let alloc = rt.alloc();
    for call in 4..=10 {
        let (_file, out) = cut_save(alloc, 1, WHOLE, call)?;
        let whole = call == 10;
        let end = if whole {
            SaveEnd::Complete
        } else {
            SaveEnd::Failed
        };
        let taken = if call == 4 { 0 } else { 1 };
        assert_eq!(rt; out.as_ref().and_then(|out| out.saved), Some(end));
        assert_eq!(rt; out.as_ref().map(|out| out.order.count()), Some(2));
        assert_eq!(rt;
            out.map(|out| out.counts),
            Some(Counts {
                faults: 0,
                sweep: taken
            })
        );
    }
    Ok(())
}
