use std::test::Fail;
use zb_parity::{parity_of, rebuild_one, xor_into};
use zb_types::ByteList;

#[test]
fn a_lost_share_comes_back(rt: HostRuntime) -> Result<(), Fail> {
    let alloc = rt.alloc();
    let long = ByteList::from_slice(alloc, &[1, 2, 3])?;
    let short = ByteList::from_slice(alloc, &[4])?;

    let parity = parity_of(alloc, &[long, short.copy(alloc)?])?;
    assert_eq!(rt; parity.slice(), [5, 2, 3].as_slice());

    let rebuilt = rebuild_one(alloc, &parity, &[short], 3)?;
    assert_eq!(rt; rebuilt.slice(), [1, 2, 3].as_slice());
    Ok(())
}

#[test]
fn lanes_and_the_rest_are_put_in(rt: HostRuntime) {
    let mut into = [0xf0; 70];
    xor_into(&mut into, &[0xff; 67]);
    assert_eq!(rt; &into[..67], [0x0f; 67].as_slice());
    assert_eq!(rt; &into[67..], [0xf0; 3].as_slice());
}
