// The line poller, by its lines.
use crate::request::request;
use poller::{Events, LinePoller, Mode, Poller};
use std::test::Fail;
use token::Error;

#[test]
fn knows_64_files(rt: HostRuntime) -> Result<(), Fail> {
    let mut poller = LinePoller::new(rt.alloc())?;
    let mut events = Events::new(rt.alloc())?;
    assert_eq!(rt; poller.add(request(63, 1, Mode::Level)), Ok(()));
    assert_eq!(rt;
        poller.add(request(64, 1, Mode::Level)),
        Err(Error::PollerFailed(9))
    );
    poller.set_lines(1 << 63);
    poller.wait(None, &mut events)?;
    assert_eq!(rt; events.items.len(), 1);
    poller.wait(None, &mut events)?;
    assert_eq!(rt; events.items.len(), 1);
    for file in 0..63 {
        assert_eq!(rt; poller.add(request(file, 1, Mode::Level)), Ok(()));
    }
    assert_eq!(rt;
        poller.add(request(64, 1, Mode::Level)),
        Err(Error::PollerFull)
    );
    Ok(())
}

// A line that stays set is told once; one that falls and rises is told again.
#[test]
fn tells_edges(rt: HostRuntime) -> Result<(), Fail> {
    let mut poller = LinePoller::new(rt.alloc())?;
    let mut events = Events::new(rt.alloc())?;
    poller.add(request(3, 30, Mode::Edge))?;
    poller.set_lines(8);
    poller.wait(None, &mut events)?;
    assert_eq!(rt; events.items.len(), 1);
    poller.set_lines(8);
    poller.wait(None, &mut events)?;
    assert_eq!(rt; events.items.len(), 0);
    poller.set_lines(0);
    poller.set_lines(8);
    poller.wait(None, &mut events)?;
    assert_eq!(rt; events.items.len(), 1);
    Ok(())
}
