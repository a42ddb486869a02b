use crate::wheel::TimerWheel;
use std::test::Fail;
use token::{Error, Token};

const NAME: Token = Token {
    id: 1,
    version: 2,
    sub_id: 3,
};

#[test]
fn fills(rt: HostRuntime) -> Result<(), Fail> {
    let mut wheel = TimerWheel::new(rt.alloc())?;
    for i in 0..256 {
        assert_eq!(rt; wheel.insert(7, NAME)?, i);
    }
    assert_eq!(rt; wheel.insert(7, NAME), Err(Error::TimersFull));
    assert_eq!(rt; wheel.insert_reuse(0, 7, NAME), Err(Error::TimersFull));
    wheel.counter = u32::MAX;
    assert_eq!(rt; wheel.insert(7, NAME), Err(Error::TimersFull));
    wheel.cancel(0);
    assert_eq!(rt; wheel.insert(7, NAME), Err(Error::TimersSpent));
    assert_eq!(rt; wheel.insert_reuse(0, 7, NAME), Ok(()));
    Ok(())
}

#[test]
fn expires_in_order(rt: HostRuntime) -> Result<(), Fail> {
    let mut wheel = TimerWheel::new(rt.alloc())?;
    wheel.insert(5, NAME)?;
    wheel.insert(3, NAME)?;
    wheel.insert(5, NAME)?;
    wheel.insert(9, NAME)?;
    assert_eq!(rt; wheel.next_deadline(), Some(3));
    assert_eq!(rt; wheel.next_expired(2), None);
    assert_eq!(rt; wheel.next_expired(5), Some((1, NAME)));
    assert_eq!(rt; wheel.next_expired(5), Some((0, NAME)));
    assert_eq!(rt; wheel.next_expired(5), Some((2, NAME)));
    assert_eq!(rt; wheel.next_expired(5), None);
    assert_eq!(rt; wheel.next_deadline(), Some(9));
    Ok(())
}

// Of entries with one counter, all go unless one of them stands first.
#[test]
fn cancels(rt: HostRuntime) -> Result<(), Fail> {
    let mut wheel = TimerWheel::new(rt.alloc())?;
    for deadline in 1..4 {
        wheel.insert_reuse(8, deadline, NAME)?;
    }
    wheel.insert_reuse(4, 0, NAME)?;
    wheel.cancel(4);
    wheel.cancel(8);
    assert_eq!(rt; wheel.next_deadline(), Some(2));
    wheel.insert_reuse(4, 0, NAME)?;
    wheel.cancel(8);
    assert_eq!(rt; wheel.next_expired(9), Some((4, NAME)));
    assert_eq!(rt; wheel.next_deadline(), None);
    Ok(())
}
