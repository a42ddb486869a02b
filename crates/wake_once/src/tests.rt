// One registration after another, over the bench poller.
use super::*;
use kinds::{Errands, EventSource};
use poller::{BenchPoller, Readiness};
use post_action::PostAction;
use std::alloc::{AllocError, Global};
use std::test::Fail;
use sys::{Poll, SetClock};
use token::{Error, Token, TokenFactory};

type Bench = Poll<BenchPoller, SetClock>;

fn new_poll(heap: Global) -> Result<Bench, AllocError> {
    let poller = BenchPoller::new(heap)?;
    Poll::new(heap, poller, SetClock { time: 0 })
}

fn token(sub_id: u16) -> Token {
    Token {
        id: 3,
        version: 1,
        sub_id,
    }
}

// The token of the event that any kind asks for before a wait.
fn wanted<S: EventSource>(source: &mut S) -> Result<Option<Token>, Error> {
    let event = source.before_sleep()?;
    Ok(event.map(|(_, token)| token))
}

#[test]
fn wakes_once_after_each_registration(rt: HostRuntime) -> Result<(), Fail> {
    let heap = rt.alloc();
    let mut poll = new_poll(heap)?;
    let mut errands = Errands::new(heap)?;
    let mut factory = TokenFactory::new(token(0));
    let mut source = WakeOnce::new();
    assert_eq!(rt; wanted(&mut source), Ok(None));
    assert_eq!(rt; source.register(&mut poll, &mut factory), Ok(()));
    // Another's event leaves its own to come, and its own is the last.
    for (event, next) in [(token(1), Some(token(0))), (token(0), None)] {
        assert_eq!(rt; wanted(&mut source), Ok(Some(token(0))));
        assert_eq!(rt;
            source.process_events(&mut poll, Readiness::READ, event, &mut errands),
            Ok(PostAction::Continue)
        );
        assert_eq!(rt; wanted(&mut source), Ok(next));
    }
    assert_eq!(rt; source.reregister(&mut poll, &mut factory), Ok(()));
    assert_eq!(rt; wanted(&mut source), Ok(Some(token(1))));
    assert_eq!(rt; source.unregister(&mut poll), Ok(()));
    assert_eq!(rt; wanted(&mut source), Ok(None));
    Ok(())
}

#[test]
fn spent_factory_leaves_nothing(rt: HostRuntime) -> Result<(), Fail> {
    let heap = rt.alloc();
    let mut poll = new_poll(heap)?;
    let mut factory = TokenFactory::new(token(0));
    let mut source = WakeOnce::new();
    for _ in 0..65_535u16 {
        assert_eq!(rt; source.reregister(&mut poll, &mut factory), Ok(()));
    }
    assert_eq!(rt; wanted(&mut source), Ok(Some(token(65_534))));
    assert_eq!(rt;
        source.reregister(&mut poll, &mut factory),
        Err(Error::SubIdsSpent)
    );
    assert_eq!(rt; wanted(&mut source), Ok(None));
    Ok(())
}
