// The poller of the test bench, by its script.
use crate::request::request;
use poller::{BenchPoller, Event, Events, Mode, Poller, Step};
use std::test::Fail;
use token::Error;

#[test]
fn fills(rt: HostRuntime) -> Result<(), Fail> {
    let mut poller = BenchPoller::new(rt.alloc())?;
    for file in 0..256 {
        assert_eq!(rt; poller.add(request(file, 1, Mode::OneShot)), Ok(()));
    }
    assert_eq!(rt;
        poller.add(request(256, 1, Mode::OneShot)),
        Err(Error::PollerFull)
    );
    assert_eq!(rt;
        poller.add(request(255, 1, Mode::OneShot)),
        Err(Error::Exists)
    );
    assert_eq!(rt; poller.delete(7), Ok(()));
    assert_eq!(rt; poller.delete(7), Err(Error::NotFound));
    assert_eq!(rt; poller.add(request(256, 1, Mode::OneShot)), Ok(()));
    Ok(())
}

// A file may be listed twice, and is told once; a one-shot entry is told again only after a modify.
#[test]
fn tells_once(rt: HostRuntime) -> Result<(), Fail> {
    let mut poller = BenchPoller::new(rt.alloc())?;
    let mut events = Events::new(rt.alloc())?;
    poller.add(request(5, 50, Mode::Edge))?;
    poller.add(request(6, 60, Mode::OneShot))?;
    poller.make_ready(vec![in rt.alloc(); 6, 5, 6, 9, 5]?);
    poller.wait(None, &mut events)?;
    assert_eq!(rt; events.items.len(), 2);
    let first = Event {
        key: 60,
        readable: true,
        writable: false,
    };
    assert_eq!(rt; events.items.get(0).copied(), Some(first));
    poller.make_ready(vec![in rt.alloc(); 6]?);
    poller.wait(None, &mut events)?;
    assert_eq!(rt; events.items.len(), 0);
    poller.modify(request(6, 61, Mode::OneShot))?;
    poller.make_ready(vec![in rt.alloc(); 6]?);
    poller.wait(None, &mut events)?;
    assert_eq!(rt; events.items.len(), 1);
    Ok(())
}

#[test]
fn fails_by_plan(rt: HostRuntime) -> Result<(), Fail> {
    let mut poller = BenchPoller::new(rt.alloc())?;
    let mut events = Events::new(rt.alloc())?;
    poller.plan(vec![in rt.alloc();
        Step::Fail(1),
        Step::Interrupt,
        Step::Fail(2),
        Step::Fail(3),
        Step::Interrupt,
        Step::Fail(4),
    ]?);
    assert_eq!(rt;
        poller.add(request(3, 30, Mode::OneShot)),
        Err(Error::PollerFailed(1))
    );
    assert_eq!(rt; poller.add(request(3, 30, Mode::OneShot)), Ok(()));
    assert_eq!(rt;
        poller.modify(request(3, 31, Mode::OneShot)),
        Err(Error::PollerFailed(2))
    );
    assert_eq!(rt; poller.delete(3), Err(Error::PollerFailed(3)));
    poller.make_ready(vec![in rt.alloc(); 3]?);
    assert_eq!(rt; poller.wait(None, &mut events), Err(Error::Interrupted));
    assert_eq!(rt; poller.wait(None, &mut events), Err(Error::PollerFailed(4)));
    assert_eq!(rt; poller.wait(None, &mut events), Ok(()));
    assert_eq!(rt; events.items.len(), 1);
    Ok(())
}
