use super::*;
use std::test::Fail;

const PAGES: u32 = 16_384;

#[test]
fn every_page_waits_and_leaves_in_turn(rt: HostRuntime) -> Result<(), Fail> {
    let mut queue = FaultQueue::new(rt.alloc(), PAGES)?;
    for k in 0..PAGES {
        let p = k * 5 % PAGES;
        assert!(rt; !queue.has(p));
        assert!(rt; queue.push(p));
        assert!(rt; !queue.push(p));
        assert!(rt; queue.has(p));
    }
    for (q, link) in queue.links().iter().enumerate() {
        let next = if q == 16_379 {
            16_379
        } else {
            (q as u32 + 5) % PAGES
        };
        assert_eq!(rt; *link, next);
    }
    for turn in 0..PAGES {
        assert_eq!(rt; queue.pop(), Some(turn * 5 % PAGES));
    }
    assert_eq!(rt; queue.pop(), None);
    for p in 0..PAGES {
        assert!(rt; queue.push(p));
    }
    Ok(())
}

#[test]
fn a_queue_of_one_page(rt: HostRuntime) -> Result<(), Fail> {
    let mut queue = FaultQueue::new(rt.alloc(), 1)?;
    assert_eq!(rt; queue.links(), [1].as_slice());
    assert_eq!(rt; queue.pop(), None);
    assert!(rt; queue.push(0));
    assert!(rt; !queue.push(0));
    assert_eq!(rt; queue.links(), [0].as_slice());
    assert_eq!(rt; queue.pop(), Some(0));
    assert_eq!(rt; queue.pop(), None);
    assert!(rt; !queue.has(0));
    Ok(())
}

// The plain list says what each call must answer.
#[test]
fn a_few_hundred_calls_agree_with_a_plain_list(rt: HostRuntime) -> Result<(), Fail> {
    let mut queue = FaultQueue::new(rt.alloc(), 13)?;
    let mut list: Vec<u32> = Vec::new(rt.alloc());
    let mut x = 1u32;
    for _ in 0..600 {
        x = x * 167 % 8_191;
        let p = x / 4 % 13;
        assert_eq!(rt; queue.has(p), list.contains(&p));
        if x % 4 < 2 {
            assert_eq!(rt; queue.push(p), !list.contains(&p));
            if !list.contains(&p) {
                list.push(p)?;
            }
        } else if list.is_empty() {
            assert_eq!(rt; queue.pop(), None);
        } else {
            assert_eq!(rt; queue.pop(), Some(list.remove(0)));
        }
        for (page, link) in queue.links().iter().enumerate() {
            let next = match list.iter().position(|q| *q as usize == page) {
                None => 13,
                Some(place) => list.get(place + 1).copied().unwrap_or(page as u32),
            };
            assert_eq!(rt; *link, next);
        }
    }
    Ok(())
}
