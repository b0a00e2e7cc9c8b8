use super::*;
use std::test::Fail;

#[test]
fn a_bit_stands_in_its_byte(rt: HostRuntime) -> Result<(), Fail> {
    let mut bitmap = Bitmap::new(rt.alloc(), 65)?;
    assert_eq!(rt; bitmap.byte_len(), 16);
    for p in 0..65 {
        assert!(rt; !bitmap.test(p));
        if [0, 9, 63, 64].contains(&p) {
            bitmap.set(p);
            assert!(rt; bitmap.test(p));
        }
    }
    let mut bytes = [0xff; 16];
    bitmap.put_bytes(&mut bytes);
    assert_eq!(rt; bytes, [1, 2, 0, 0, 0, 0, 0, 0x80, 1, 0, 0, 0, 0, 0, 0, 0]);
    Ok(())
}

#[test]
fn bits_past_the_last_page_are_ignored(rt: HostRuntime) -> Result<(), Fail> {
    let mut one = Bitmap::new(rt.alloc(), 1)?;
    let mut bytes = [0xff; 8];
    one.get_bytes(&bytes);
    assert!(rt; one.test(0));
    one.put_bytes(&mut bytes);
    assert_eq!(rt; bytes, [1, 0, 0, 0, 0, 0, 0, 0]);

    let mut word = Bitmap::new(rt.alloc(), 64)?;
    assert_eq!(rt; word.byte_len(), 8);
    word.get_bytes(&[0, 0, 0, 0, 0, 0, 0, 0x40]);
    for p in 0..64 {
        assert_eq!(rt; word.test(p), p == 62);
    }
    Ok(())
}

#[test]
fn the_largest_bitmap_is_read_back(rt: HostRuntime) -> Result<(), Fail> {
    let mut bitmap = Bitmap::new(rt.alloc(), 2_048)?;
    for p in 0..2_048 {
        if p % 3 == 0 {
            bitmap.set(p);
        }
    }
    let mut bytes = [0; 256];
    assert_eq!(rt; bitmap.byte_len(), bytes.len());
    bitmap.put_bytes(&mut bytes);
    assert_eq!(rt; &bytes[..3], [0x49, 0x92, 0x24].as_slice());
    let mut copy = Bitmap::new(rt.alloc(), 2_048)?;
    copy.get_bytes(&bytes);
    for q in 0..2_048 {
        assert_eq!(rt; copy.test(q), q % 3 == 0);
    }
    Ok(())
}
