use crate::files::{GUEST, TWO_PAGES, front, whole};
use medium::MemMedium;
use page_peek::{PageFault, Peek, PeekFault, PeekRefusal};
use ram_block::{PageBuf, Shape};
use snapshot_by_hand::{SMALLEST, Snapshot};
use std::alloc::Global;
use std::test::Fail;

// A file opened as one of so many blocks, with so many pages in each.
fn opened(
    alloc: Global,
    file: &mut MemMedium,
    blocks: u64,
    pages: u64,
) -> Result<Result<Peek, PeekFault>, Fail> {
    let shape = Shape::new(1, blocks, pages)?;
    Ok(Peek::open(alloc, file, shape))
}

// The page with a number, of the file in one block of two pages.
fn page_of(
    peek: &Peek,
    file: &mut MemMedium,
    p: u32,
    into: &mut PageBuf,
) -> Option<Result<(), PageFault>> {
    if p < peek.shape().total_pages() {
        Some(peek.page(file, p, into))
    } else {
        None
    }
}

#[test]
fn a_page_is_its_bytes_or_zeros(rt: HostRuntime) -> Result<(), Fail> {
    let alloc = rt.alloc();
    let mut file = whole(alloc, &TWO_PAGES)?;
    let peek = opened(alloc, &mut file, 1, 2)??;
    let mut page = PageBuf::new(alloc)?;
    assert_eq!(rt; page_of(&peek, &mut file, 0, &mut page), Some(Ok(())));
    assert!(rt; page.bytes().starts_with(&GUEST));
    assert!(rt; page.bytes().iter().skip(8).all(|byte| *byte == 0));
    assert_eq!(rt; page_of(&peek, &mut file, 1, &mut page), Some(Ok(())));
    assert!(rt; page.bytes().iter().all(|byte| *byte == 0));
    Ok(())
}

#[test]
fn the_first_wrong_head_is_refused(rt: HostRuntime) -> Result<(), Fail> {
    let alloc = rt.alloc();
    let two_blocks = Snapshot {
        blocks: 2,
        ..SMALLEST
    };
    for (snapshot, len, blocks, pages, refusal) in [
        (
            &TWO_PAGES,
            96,
            1,
            1,
            PeekRefusal::Differs {
                at: 45,
                found: 0x20,
            },
        ),
        (
            &TWO_PAGES,
            96,
            2,
            1,
            PeekRefusal::Differs {
                at: 58,
                found: 0x20,
            },
        ),
        (&TWO_PAGES, 95, 1, 1, PeekRefusal::Truncated { at: 0 }),
        (&TWO_PAGES, 0, 1, 2, PeekRefusal::Truncated { at: 0 }),
        (
            &two_blocks,
            0x10_102f,
            2,
            1,
            PeekRefusal::Truncated { at: 0x10_1000 },
        ),
    ] {
        let mut file = front(alloc, snapshot, len, u64::MAX)?;
        let fault = opened(alloc, &mut file, blocks, pages)?.err();
        assert_eq!(rt; fault, Some(PeekFault::Refused(refusal)));
    }
    Ok(())
}

#[test]
fn a_cut_page_is_named_by_its_place(rt: HostRuntime) -> Result<(), Fail> {
    let alloc = rt.alloc();
    let mut file = front(alloc, &TWO_PAGES, 0x10_0fff, u64::MAX)?;
    let peek = opened(alloc, &mut file, 1, 2)??;
    let mut page = PageBuf::new(alloc)?;
    let fault = PageFault::Truncated { at: 0x10_0000 };
    assert_eq!(rt; page_of(&peek, &mut file, 0, &mut page), Some(Err(fault)));
    assert_eq!(rt; page_of(&peek, &mut file, 1, &mut page), Some(Ok(())));
    Ok(())
}
