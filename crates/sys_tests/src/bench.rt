// Over the bench poller, which has no level mode.
use crate::world::{count, token};
use poller::{BenchPoller, Interest, Mode, Step};
use std::alloc::{AllocError, Global};
use std::test::Fail;
use sys::{Poll, PollEvents, SetClock, Setting};
use token::Error;

type Bench = Poll<BenchPoller, SetClock>;

fn new_poll(heap: Global) -> Result<Bench, AllocError> {
    let poller = BenchPoller::new(heap)?;
    Poll::new(heap, poller, SetClock { time: 0 })
}

// The files are ready at that time.
fn ready_at(heap: Global, files: &[u32], time: u64) -> Result<Setting, AllocError> {
    let ready = Some(files.to_vec(heap)?);
    Ok(Setting {
        time,
        ready,
        plan: None,
    })
}

#[test]
fn level_is_armed_again(rt: HostRuntime) -> Result<(), Fail> {
    let heap = rt.alloc();
    let mut poll = new_poll(heap)?;
    assert_eq!(rt;
        poll.register(7, Interest::READ, Mode::Level, token(0)),
        Ok(())
    );
    assert_eq!(rt;
        poll.register(8, Interest::READ, Mode::OneShot, token(1)),
        Ok(())
    );
    assert_eq!(rt; count(heap, &mut poll, ready_at(heap, &[7, 8], 0)?)?, 2);
    assert_eq!(rt; count(heap, &mut poll, ready_at(heap, &[8, 7], 0)?)?, 1);
    assert_eq!(rt; count(heap, &mut poll, ready_at(heap, &[7], 0)?)?, 1);
    assert_eq!(rt; poll.unregister(7), Ok(()));
    assert_eq!(rt; count(heap, &mut poll, ready_at(heap, &[7], 0)?)?, 0);
    Ok(())
}

#[test]
fn failed_arming_loses_the_wait(rt: HostRuntime) -> Result<(), Fail> {
    let heap = rt.alloc();
    let mut poll = new_poll(heap)?;
    for file in 0..3u32 {
        assert_eq!(rt;
            poll.register(file, Interest::READ, Mode::Level, token(file)),
            Ok(())
        );
    }
    assert_eq!(rt; poll.insert_timer(5, token(9)), Ok(0));
    let ready = Some([0, 1, 2].to_vec(heap)?);
    let plan = Some([Step::Work, Step::Work, Step::Fail(4)].to_vec(heap)?);
    poll.arrange(&mut Setting {
        time: 5,
        ready,
        plan,
    });
    let mut events = PollEvents::new(heap)?;
    assert_eq!(rt; poll.poll(None, &mut events), Err(Error::PollerFailed(4)));
    assert_eq!(rt; events.items.len(), 3);
    // Only the first was armed again, and the timer was not taken.
    assert_eq!(rt; count(heap, &mut poll, ready_at(heap, &[0, 1, 2], 4)?)?, 1);
    assert_eq!(rt; count(heap, &mut poll, ready_at(heap, &[], 5)?)?, 1);
    Ok(())
}

#[test]
fn interrupted_and_refused(rt: HostRuntime) -> Result<(), Fail> {
    let heap = rt.alloc();
    let mut poll = new_poll(heap)?;
    assert_eq!(rt;
        poll.register(1, Interest::READ, Mode::Edge, token(0)),
        Err(Error::NoEdge)
    );
    assert_eq!(rt;
        poll.reregister(1, Interest::READ, Mode::Level, token(0)),
        Err(Error::NotFound)
    );
    let plan = Some([Step::Interrupt].to_vec(heap)?);
    poll.arrange(&mut Setting {
        time: 0,
        ready: None,
        plan,
    });
    let mut events = PollEvents::new(heap)?;
    assert_eq!(rt; poll.poll(Some(3), &mut events), Err(Error::Interrupted));
    Ok(())
}

#[test]
fn table_has_256_lines(rt: HostRuntime) -> Result<(), Fail> {
    let heap = rt.alloc();
    let mut poll = new_poll(heap)?;
    for file in 0..256u32 {
        assert_eq!(rt;
            poll.register(file, Interest::READ, Mode::Level, token(file)),
            Ok(())
        );
    }
    assert_eq!(rt;
        poll.register(256, Interest::READ, Mode::Level, token(256)),
        Err(Error::LevelFull)
    );
    assert_eq!(rt;
        poll.register(256, Interest::READ, Mode::OneShot, token(256)),
        Err(Error::PollerFull)
    );
    assert_eq!(rt;
        poll.reregister(7, Interest::READ, Mode::Level, token(7)),
        Ok(())
    );
    poll.let_go(7);
    assert_eq!(rt;
        poll.register(256, Interest::READ, Mode::Level, token(256)),
        Ok(())
    );
    Ok(())
}

#[test]
fn clock_may_run_backwards(rt: HostRuntime) -> Result<(), Fail> {
    let heap = rt.alloc();
    let mut poll = new_poll(heap)?;
    assert_eq!(rt; poll.insert_timer(50, token(0)), Ok(0));
    assert_eq!(rt; count(heap, &mut poll, ready_at(heap, &[], 49)?)?, 0);
    assert_eq!(rt; count(heap, &mut poll, ready_at(heap, &[], 50)?)?, 1);
    assert_eq!(rt; poll.reuse_timer(0, 40, token(0)), Ok(()));
    assert_eq!(rt; count(heap, &mut poll, ready_at(heap, &[], 30)?)?, 0);
    poll.cancel_timer(0);
    assert_eq!(rt; count(heap, &mut poll, ready_at(heap, &[], 60)?)?, 0);
    Ok(())
}
