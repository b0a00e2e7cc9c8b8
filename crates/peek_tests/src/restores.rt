use crate::files::{GUEST, TWO_PAGES, front, whole};
use lazy_restore::{Lazy, LazyStep};
use loader::LoadFault;
use page_peek::PageFault;
use std::test::Fail;

#[test]
fn a_page_is_touched_by_its_first_event(rt: HostRuntime) -> Result<(), Fail> {
    let alloc = rt.alloc();
    let mut file = whole(alloc, &TWO_PAGES)?;
    match Lazy::open(alloc, &mut file) {
        Ok(mut lazy) => {
            assert_eq!(rt; lazy.touched(), 0);
            assert_eq!(rt; (lazy.step(0), lazy.touched()), (LazyStep::Event, 1));
            assert_eq!(rt; lazy.vcpu(0).steps(), 1);
            assert_eq!(rt; (lazy.step(0), lazy.touched()), (LazyStep::Event, 1));
            assert_eq!(rt; lazy.vcpu(0).steps(), 1);
            assert_eq!(rt; (lazy.step(0), lazy.touched()), (LazyStep::Event, 2));
            let machine = lazy.finish()?;
            assert_eq!(rt; (machine.clock(), machine.vcpu(0).steps()), (3, 2));
            let mut pages = machine.pages().iter();
            assert!(rt;
                pages
                    .next()
                    .is_some_and(|page| page.bytes().starts_with(&GUEST))
            );
            let stored = [0, 0x10, 0, 0x80, 0, 0, 0, 0];
            assert!(rt;
                pages
                    .next()
                    .is_some_and(|page| page.bytes().starts_with(&stored))
            );
        }
        Err((_, fault)) => Err(fault)?,
    }
    Ok(())
}

#[test]
fn no_page_is_read_before_its_first_event(rt: HostRuntime) -> Result<(), Fail> {
    let alloc = rt.alloc();
    let mut is_open = false;
    for from in 1..100 {
        let mut file = front(alloc, &TWO_PAGES, usize::MAX, from)?;
        match Lazy::open(alloc, &mut file) {
            Ok(mut lazy) => {
                assert_eq!(rt; lazy.step(0), LazyStep::ReadFault);
                assert_eq!(rt; (lazy.touched(), lazy.vcpu(0).pc()), (0, 0x8000_0000));
                assert_eq!(rt; lazy.finish().err(), Some(PageFault::ReadFault));
                is_open = true;
                break;
            }
            Err((_, fault)) => assert_eq!(rt; fault, LoadFault::ReadFault),
        }
    }
    assert!(rt; is_open);
    Ok(())
}
