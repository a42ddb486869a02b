// The last tickets of idles, which no run of calls comes to.
use super::*;
use std::test::Fail;

#[test]
fn last_ticket(rt: HostRuntime) -> Result<(), Fail> {
    let waiting = Bounded::new(rt.alloc())?;
    let mut idles = Idles {
        waiting,
        next_ticket: 4_294_967_293,
    };
    assert_eq!(rt; idles.enter(7), Ok(4_294_967_293));
    assert_eq!(rt; idles.enter(8), Ok(4_294_967_294));
    assert_eq!(rt; idles.enter(9), Err(Error::IdleFull));
    assert_eq!(rt; idles.as_slice().len(), 2);
    Ok(())
}
