// A loop over a poller that knows level mode, and so Edge.
use crate::calls::Kind;
use crate::fixture::{Source, source};
use event_loop::{EventLoop, InsertError};
use kinds::EventSource;
use poller::LinePoller;
use std::test::Fail;
use sys::SetClock;

#[test]
fn a_source_in_edge_mode_is_inserted(rt: HostRuntime) -> Result<(), Fail> {
    let heap = rt.alloc();
    let poller = LinePoller::new(heap)?;
    let mut event_loop = EventLoop::<LinePoller, SetClock, Source>::new(
        heap,
        poller,
        SetClock { time: 0 },
    )?;
    let inserted = match event_loop.insert(source(Kind::Edge, 7)) {
        Ok(token) => Ok(token.id),
        Err(InsertError { inserted, error }) => {
            inserted.end();
            Err(error)
        }
    };
    assert_eq!(rt; inserted, Ok(0));
    assert_eq!(rt; event_loop.dispatch(None), Ok(()));
    assert!(rt; event_loop.sheet.items.is_empty());
    event_loop.end();
    Ok(())
}
