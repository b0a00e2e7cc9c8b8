use super::*;

#[test]
fn pages_begin_at_the_next_megabyte(rt: HostRuntime) {
    // A block of 64 pages has 8 bytes of bitmap, one of 65 has 16; the second block begins behind the first.
    for (header, pages, bitmap, first_page, end) in [
        (60, 1, 88, 0x10_0000, 0x10_1000),
        (60, 64, 88, 0x10_0000, 0x14_0000),
        (60, 65, 88, 0x10_0000, 0x14_1000),
        (0x10_100d, 1, 0x10_1029, 0x20_0000, 0x20_1000),
    ] {
        let found = places(header, pages);
        assert_eq!(rt;
            found,
            Places {
                header,
                bitmap,
                pages: first_page,
                end
            }
        );
    }
}

#[test]
fn a_header_has_its_bytes(rt: HostRuntime) {
    let bytes = put_header(&places(60, 1));
    let wanted: [u8; 28] = [
        0, 0, 0, 1, 0, 0, 0, 0, 0, 0, 0x10, 0, 0, 0, 0, 0, 0, 0, 0, 0x58, 0, 0, 0, 0, 0, 0x10, 0, 0,
    ];
    assert_eq!(rt; bytes.as_slice(), wanted.as_slice());
}

// The header of a block of one page at 60, with one byte more in each of the fields named.
fn header_with(fields: &[usize]) -> [u8; 28] {
    let mut bytes = [
        0, 0, 0, 1, 0, 0, 0, 0, 0, 0, 0x10, 0, 0, 0, 0, 0, 0, 0, 0, 0x58, 0, 0, 0, 0, 0, 0x10, 0, 0,
    ];
    for &last in fields {
        if last < 28 {
            bytes[last] = 7;
        }
    }
    bytes
}

#[test]
fn the_first_wrong_field_is_named(rt: HostRuntime) {
    let block = places(60, 1);
    let version = HeaderFault::Version(7);
    let page = HeaderFault::PageSize(0x1007);
    let bitmap = HeaderFault::BitmapOffset(7);
    let pages = HeaderFault::PagesOffset(0x10_0007);
    assert_eq!(rt; get_header(&header_with(&[]), &block), Ok(()));
    assert_eq!(rt; get_header(&header_with(&[3]), &block), Err(version));
    assert_eq!(rt; get_header(&header_with(&[11]), &block), Err(page));
    assert_eq!(rt; get_header(&header_with(&[19]), &block), Err(bitmap));
    assert_eq!(rt; get_header(&header_with(&[27]), &block), Err(pages));
    assert_eq!(rt; get_header(&header_with(&[3, 11]), &block), Err(version));
    assert_eq!(rt; get_header(&header_with(&[3, 19]), &block), Err(version));
    assert_eq!(rt; get_header(&header_with(&[3, 27]), &block), Err(version));
    assert_eq!(rt; get_header(&header_with(&[11, 19]), &block), Err(page));
    assert_eq!(rt; get_header(&header_with(&[11, 27]), &block), Err(page));
    assert_eq!(rt; get_header(&header_with(&[19, 27]), &block), Err(bitmap));
}
