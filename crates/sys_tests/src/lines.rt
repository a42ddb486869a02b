// Over the line poller, which has level mode.
use crate::world::{Lines, count, token};
use poller::{Interest, LinePoller, Mode};
use std::test::Fail;
use sys::{Poll, SetClock};
use token::Error;

#[test]
fn modes_go_down_as_they_are(rt: HostRuntime) -> Result<(), Fail> {
    let heap = rt.alloc();
    let poller = LinePoller::new(heap)?;
    let mut poll = Poll::new(heap, poller, SetClock { time: 0 })?;
    assert_eq!(rt;
        poll.register(0, Interest::READ, Mode::Level, token(0)),
        Ok(())
    );
    assert_eq!(rt;
        poll.register(1, Interest::READ, Mode::Edge, token(1)),
        Ok(())
    );
    assert_eq!(rt;
        poll.register(2, Interest::READ, Mode::OneShot, token(2)),
        Ok(())
    );
    assert_eq!(rt;
        poll.register(64, Interest::READ, Mode::Level, token(3)),
        Err(Error::PollerFailed(9))
    );
    assert_eq!(rt; count(heap, &mut poll, Lines { lines: 7 })?, 3);
    assert_eq!(rt; count(heap, &mut poll, Lines { lines: 7 })?, 1);
    assert_eq!(rt; count(heap, &mut poll, Lines { lines: 0 })?, 0);
    assert_eq!(rt; count(heap, &mut poll, Lines { lines: 3 })?, 2);
    Ok(())
}
