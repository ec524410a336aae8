use std::test::Fail;
use zb_numbers::{are_zeros, push_u16, push_u32, push_u64, split_u16, split_u32, split_u64};
use zb_types::ByteList;

const BYTES: [u8; 14] = [1, 2, 3, 4, 5, 6, 7, 8, 9, 10, 11, 12, 13, 14];

#[test]
fn the_highest_byte_is_written_first(rt: HostRuntime) -> Result<(), Fail> {
    let alloc = rt.alloc();
    let mut list = ByteList::new(alloc)?;
    push_u16(alloc, &mut list, 0x0102)?;
    push_u32(alloc, &mut list, 0x0304_0506)?;
    push_u64(alloc, &mut list, 0x0708_090a_0b0c_0d0e)?;
    assert_eq!(rt; list.slice(), BYTES.as_slice());
    Ok(())
}

#[test]
fn the_highest_byte_is_read_first(rt: HostRuntime) {
    let (short, rest) = split_u16(&BYTES);
    let (middle, rest) = split_u32(rest);
    let (long, rest) = split_u64(rest);
    assert_eq!(rt; short, 0x0102);
    assert_eq!(rt; middle, 0x0304_0506);
    assert_eq!(rt; long, 0x0708_090a_0b0c_0d0e);
    assert!(rt; rest.is_empty());

    assert!(rt; are_zeros(&[0, 0]));
    assert!(rt; !are_zeros(&[0, 1]));
}
