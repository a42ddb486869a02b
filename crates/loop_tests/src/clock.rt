// The clock is read before the hooks are asked, and sources are shown their events in order. No contract sees either, since no hook
// is handed the clock, nor anything that another source has: here they share it.
ghost use Rattle.post_action.specs.declared.PostAction.TheVariants.{Continue};
ghost use Rattle.rules.specs.Calls.{came, went};
ghost use Rattle.std.proofs.Common.{rules};
ghost use Rattle.std.specs.Prelude.{◌≡◌, true, [], None};
ghost use Rattle.token.specs.Refusal.{done};

use event_loop::{EventLoop, InsertError};
use kinds::{Errand, Errands, EventIterator, EventSource, Reply};
use poller::{BenchPoller, Poller, Readiness, Step};
use post_action::PostAction;
use std::alloc::Global;
use std::cell::Cell;
use std::test::Fail;
use sys::{Clock, Poll};
use token::{Error, Token, TokenFactory};

// What a reading gives is nobody's promise.
#[derive(Drop)]
struct SharedClock<'a> {
    time: &'a Cell<u64>,
}

impl Clock for SharedClock<'_> {
    ghost reads = { λ s r t. t ≡ s };

    fn now(&mut self) -> u64 {
        self.time.get()
    }
}

// A source without a file or a timer and with no event. The hook before a wait takes its time; that after it appends a digit.
#[derive(Drop)]
struct Slow<'a> {
    time: &'a Cell<u64>,
    takes: u64,
}

impl EventSource for Slow<'_> {
    ghost means = { λ s. record { held = []; entered = []; drew = []; counters = []; hooks = true } };

    ghost registers = { λ s w d xs r s' w' d'. came xs r s' w' d' ≡ came [] (done tt) s w d };

    ghost reregisters = { λ s w d xs r s' w' d'. came xs r s' w' d' ≡ came [] (done tt) s w d };

    ghost unregisters = { λ s w xs r s' w'. went xs r s' w' ≡ went [] (done tt) s w };

    ghost leaves = { λ s w xs s' w'. (xs ≡ []) × (s' ≡ s) × (w' ≡ w) };

    ghost processes = { λ s w x t es xs r s' w' es'. (went xs r s' w' ≡ went [] (done Continue) s w) × (es' ≡ es) };

    ghost hears = { λ s e a s'. s' ≡ s };

    ghost sleeps = { λ s r s'. (r ≡ done None) × (s' ≡ s) };

    ghost sees = { λ s vs s'. s' ≡ s };

    ghost ends = { λ s. Unit {0} };

    ghost registering = { Prim.search rules };

    ghost reregistering = { Prim.search rules };

    ghost unregistering = { Prim.search rules };

    ghost leaving = { Prim.search rules };

    ghost processing = { Prim.search rules };

    ghost hearing = { Prim.search rules };

    ghost sleeping = { Prim.search rules };

    ghost seeing = { Prim.search rules };

    fn register<P: Poller, C: Clock>(
        &mut self,
        _poll: &mut Poll<P, C>,
        _factory: &mut TokenFactory,
    ) -> Result<(), Error> {
        Ok(())
    }

    fn reregister<P: Poller, C: Clock>(
        &mut self,
        _poll: &mut Poll<P, C>,
        _factory: &mut TokenFactory,
    ) -> Result<(), Error> {
        Ok(())
    }

    fn unregister<P: Poller, C: Clock>(&mut self, _poll: &mut Poll<P, C>) -> Result<(), Error> {
        Ok(())
    }

    fn let_go<P: Poller, C: Clock>(&mut self, _poll: &mut Poll<P, C>) {}

    fn end(self) {}

    fn process_events<P: Poller, C: Clock>(
        &mut self,
        _poll: &mut Poll<P, C>,
        _readiness: Readiness,
        _token: Token,
        _errands: &mut Errands,
    ) -> Result<PostAction, Error> {
        Ok(PostAction::Continue)
    }

    fn told(&mut self, _errand: Errand, _answer: Result<Reply, Error>) {}

    fn needs_hooks(&self) -> bool {
        true
    }

    fn before_sleep(&mut self) -> Result<Option<(Readiness, Token)>, Error> {
        self.time.set(self.time.get().wrapping_add(self.takes));
        Ok(None)
    }

    fn before_handle_events(&mut self, _events: EventIterator<'_>) {
        let time = self.time.get().wrapping_mul(10);
        self.time.set(time.wrapping_add(self.takes));
    }
}

// A dispatch with a timeout of 5, whose first wait is interrupted and whose second fails, beside a hook that takes
// so long.
fn dispatch(heap: Global, takes: u64) -> Result<Result<(), Error>, Fail> {
    let time = Cell::new(100);
    let mut poller = BenchPoller::new(heap)?;
    poller.plan(vec![in heap; Step::Interrupt, Step::Fail(4)]?);
    let mut event_loop = EventLoop::new(heap, poller, SharedClock { time: &time })?;
    let answer = match event_loop.insert(Slow { time: &time, takes }) {
        Ok(_) => event_loop.dispatch(Some(5)),
        Err(InsertError { inserted: _, error }) => Err(error),
    };
    event_loop.end();
    Ok(answer)
}

// By the second reading the timeout is over where the hook took all of it, as long as the first was made before the hook.
#[test]
fn a_slow_hook_takes_from_the_timeout(rt: HostRuntime) -> Result<(), Fail> {
    let heap = rt.alloc();
    assert_eq!(rt; dispatch(heap, 4)?, Err(Error::PollerFailed(4)));
    assert_eq!(rt; dispatch(heap, 5)?, Ok(()));
    Ok(())
}

// The first source takes 1, and the second 2; then each appends its digit.
#[test]
fn shown_in_the_order_of_their_entries(rt: HostRuntime) -> Result<(), Fail> {
    let heap = rt.alloc();
    let time = Cell::new(0);
    let poller = BenchPoller::new(heap)?;
    let mut event_loop = EventLoop::new(heap, poller, SharedClock { time: &time })?;
    for takes in 1..3u64 {
        if let Err(InsertError { inserted, error: _ }) = event_loop.insert(Slow {
            time: &time,
            takes,
        }) {
            inserted.end();
        }
    }
    let answer = event_loop.dispatch(None);
    event_loop.end();
    assert_eq!(rt; answer, Ok(()));
    assert_eq!(rt; time.get(), 312);
    Ok(())
}
