use super::*;
use std::test::Fail;

#[test]
fn fills(rt: HostRuntime) -> Result<(), Fail> {
    let mut list = Bounded::<u32, 3>::new(rt.alloc())?;
    for i in 0..3u32 {
        assert!(rt; !list.is_full());
        assert_eq!(rt; list.try_push(i), Ok(()));
    }
    assert!(rt; list.is_full());
    assert_eq!(rt; list.try_push(7), Err(7));
    assert_eq!(rt; list.items.as_slice(), [0, 1, 2].as_slice());
    Ok(())
}
