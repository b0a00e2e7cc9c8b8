use super::*;
use std::test::Fail;

const PAGES: u32 = 16_384;

#[test]
fn a_sweep_empties_from_both_ends(rt: HostRuntime) -> Result<(), Fail> {
    let mut sweep = Sweep::full(rt.alloc(), PAGES)?;
    for p in 0..PAGES / 2 {
        assert_eq!(rt; sweep.first(), Some(p));
        assert!(rt; sweep.remove(p));
        assert!(rt; sweep.remove(PAGES - 1 - p));
        assert!(rt; !sweep.remove(p));
        assert_eq!(rt; sweep.left(), PAGES - 2 - 2 * p);
    }
    assert_eq!(rt; sweep.first(), None);
    assert!(rt; sweep.links_next().iter().all(|link| *link == PAGES));
    assert!(rt; sweep.links_prev().iter().all(|link| *link == PAGES));
    Ok(())
}

#[test]
fn a_sweep_empties_from_the_middle_outwards(rt: HostRuntime) -> Result<(), Fail> {
    let mut sweep = Sweep::full(rt.alloc(), PAGES)?;
    for d in 0..PAGES / 2 - 1 {
        assert!(rt; sweep.remove(PAGES / 2 - 1 - d));
        assert!(rt; sweep.remove(PAGES / 2 + d));
        assert_eq!(rt; sweep.first(), Some(0));
        assert_eq!(rt;
            sweep.links_next()[(PAGES / 2 - 2 - d) as usize],
            PAGES / 2 + 1 + d
        );
        assert_eq!(rt;
            sweep.links_prev()[(PAGES / 2 + 1 + d) as usize],
            PAGES / 2 - 2 - d
        );
    }
    assert_eq!(rt; sweep.left(), 2);
    assert!(rt; sweep.remove(0));
    assert_eq!(rt; sweep.first(), Some(PAGES - 1));
    assert!(rt; sweep.remove(PAGES - 1));
    assert_eq!(rt; sweep.first(), None);
    Ok(())
}

// The plain list says what each call must answer.
#[test]
fn scattered_removals_agree_with_a_plain_list(rt: HostRuntime) -> Result<(), Fail> {
    let mut sweep = Sweep::full(rt.alloc(), 97)?;
    let mut list: Vec<u32> = (0..97).collect(rt.alloc())?;
    let mut x = 1u32;
    for _ in 0..800 {
        x = x * 167 % 8_191;
        let p = x % 97;
        assert_eq!(rt; sweep.remove(p), list.contains(&p));
        list.retain(|q| *q != p);
        assert_eq!(rt; sweep.first(), list.first().copied());
        assert_eq!(rt; sweep.left() as usize, list.len());
        for (page, link) in sweep.links_next().iter().enumerate() {
            assert_eq!(rt; *link, link_in(&list, page, 1));
        }
        for (page, link) in sweep.links_prev().iter().enumerate() {
            assert_eq!(rt; *link, link_in(&list, page, usize::MAX));
        }
    }
    assert!(rt; list.is_empty());
    Ok(())
}

// The page `step` places on in the list, wrapping: the page itself where there is none, and 97 where it isn't in the list.
fn link_in(list: &[u32], page: usize, step: usize) -> u32 {
    match list.iter().position(|q| *q as usize == page) {
        None => 97,
        Some(place) => list
            .get(place.wrapping_add(step))
            .copied()
            .unwrap_or(page as u32),
    }
}

#[test]
fn a_sweep_of_one_page_and_of_none(rt: HostRuntime) -> Result<(), Fail> {
    let mut sweep = Sweep::full(rt.alloc(), 1)?;
    assert_eq!(rt; sweep.first(), Some(0));
    assert_eq!(rt; sweep.links_next(), [0].as_slice());
    assert_eq!(rt; sweep.links_prev(), [0].as_slice());
    assert!(rt; sweep.remove(0));
    assert!(rt; !sweep.remove(0));
    assert_eq!(rt; sweep.links_next(), [1].as_slice());
    assert_eq!(rt; Sweep::full(rt.alloc(), 0)?.first(), None);
    Ok(())
}
