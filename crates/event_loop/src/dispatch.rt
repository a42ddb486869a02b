// The making and the end of a loop, and a dispatch: hooks, a wait, and a turn for each event.
ghost use Rattle.std.specs.Prelude.{◌≡◌, ℕ, ◌≤◌, ◌⊎◌, List, [], IfOk, length, reverse};
ghost use Rattle.event_loop.specs.End.{vacates, vacates_all};
ghost use Rattle.event_loop.specs.State.{Aside, Dispatching, Idle, handle_of, polling_of};
ghost use Rattle.loop_handle.specs.State.{Orderly, loop_of, loop_over};
ghost use Rattle.model.specs.Course.{Takes};
ghost use Rattle.model.specs.Dispatch.{dispatch_of, handled, hands_out, timeout_by, waits_by};
ghost use Rattle.model.specs.Laws.{NoneLost, Stopped, Woke};
ghost use Rattle.model.specs.State.{new_loop};
ghost use Rattle.sys.specs.World.{Between};
ghost use Rattle.token.specs.Refusal.{done, outcome};
ghost use Rattle.token.specs.declared.token.Token.{Token};
ghost use Rattle.turns.specs.Turns.{turns_as};

use crate::remaining::remaining;
use crate::state::EventLoop;
use bounded::Bounded;
use kinds::{Errands, EventSource};
use list::{Place, Slot, SourceList};
use loop_handle::{LoopHandle, Registry};
use poller::Poller;
use sheet::Sheet;
use std::alloc::{AllocError, Global};
use sys::{Clock, Environment, Poll, PollEvent, PollEvents};
use token::Error;
use turns::{LoopInner, lose};

impl<P: Poller, C: Clock, S: EventSource> EventLoop<P, C, S> {
    // The only call that allocates: it reserves all that the loop will ever use.
    pub fn new(heap: Global, poller: P, clock: C) -> Result<EventLoop<P, C, S>, AllocError>
    where
        P: Drop,
        C: Drop,
        ensures is { IfOk result (λ l. loop_over P.Poller (handle_of l) ≡ new_loop (P.Poller.entries poller) (P.Poller.most poller) P.Poller.LEVEL) }
        ensures poll { IfOk result (λ l. ((polling_of l).poller ≡ poller) × ((polling_of l).clock ≡ clock)) }
        ensures idle { IfOk result Idle }
        ensures order { P.Poller.entries poller ≡ [] → IfOk result (λ l. Orderly P.Poller S.EventSource [] [] (handle_of l)) }
    {
        let synthetic_events = Bounded::new(heap)?;
        let events = PollEvents::new(heap)?;
        let sheet = Sheet::new(heap)?;
        let errands = Errands::new(heap)?;
        let handle = LoopHandle::new(heap, poller, clock)?;
        Ok(EventLoop {
            inner: LoopInner { handle, errands },
            synthetic_events,
            events,
            sheet,
        })
    }

    // Lets every source go, and hands the polling system back.
    pub fn end(self) -> Poll<P, C>
        ensures { Between P.Poller C.Clock (handle_of self).registry.poll result (λ w xs w'. Takes S.EventSource (vacates_all (reverse (handle_of self).sources) w) xs w') }
    {
        let EventLoop {
            inner,
            synthetic_events: _,
            events: _,
            sheet: _,
        } = self;
        let LoopInner { handle, errands: _ } = inner;
        let LoopHandle {
            registry,
            mut sources,
            idles: _,
            pending_action: _,
        } = handle;
        let Registry {
            mut poll,
            lifecycle: _,
        } = registry;
        let_all_go(&mut poll, &mut sources);
        sources.end();
        poll
    }

    // Lets the world change what the poller and the clock will say.
    pub fn arrange<E: Environment<P, C>>(&mut self, environment: &mut E)
        ensures is { E.Environment.arranges environment.old (polling_of self.old).poller (polling_of self.old).clock environment.new (polling_of self.new).poller (polling_of self.new).clock }
        ensures same { loop_over P.Poller (handle_of self.new) ≡ loop_over P.Poller (handle_of self.old) }
        ensures aside { Aside self.old self.new }
        ensures order { (h : List ℕ) (v : List Token) → Orderly P.Poller S.EventSource h v (handle_of self.old) → Orderly P.Poller S.EventSource h v (handle_of self.new) }
    {
        self.inner.handle.registry.poll.arrange(environment);
    }

    // Hands the events of one wait to their sources. The sheet says what became of each.
    pub fn dispatch(&mut self, timeout: Option<u64>) -> Result<(), Error>
        ensures lost { outcome result ≡ done tt → NoneLost self.new.sheet.items.items }
        ensures order { (h : List ℕ) (v : List Token) → Orderly P.Poller S.EventSource h v (handle_of self.old) → Orderly P.Poller S.EventSource h v (handle_of self.new) }
        ensures is { Dispatching P.Poller C.Clock self.old (outcome result) self.new (λ l q xs o. Takes S.EventSource (dispatch_of S.EventSource timeout l q) xs o × (Stopped q xs o ⊎ Woke timeout l.world q xs o)) }
    {
        self.dispatch_events(timeout)
    }

    fn dispatch_events(&mut self, timeout: Option<u64>) -> Result<(), Error>
        ensures { Dispatching P.Poller C.Clock self.old (outcome result) self.new (λ l q xs o. Takes S.EventSource (dispatch_of S.EventSource timeout l q) xs o) }
    {
        self.sheet.items.clear();
        self.events.items.clear();
        self.inner.errands.clear();
        let start = self.inner.handle.registry.poll.now();
        self.inner.before_sleep(&mut self.synthetic_events)?;
        self.wait_and_hand_out(timeout, start)
    }

    // Waits, again after an interruption, at most 63 times, and hands out what was reported.
    fn wait_and_hand_out(&mut self, timeout: Option<u64>, start: u64) -> Result<(), Error>
        requires sheet { self.old.sheet.items.items ≡ [] }
        requires errands { self.old.inner.errands ≡ [] }
        ensures { Dispatching P.Poller C.Clock self.old (outcome result) self.new (λ l q xs o. Takes S.EventSource (waits_by S.EventSource (done tt) timeout start l q) xs o) }
    {
        let EventLoop {
            inner,
            synthetic_events,
            events,
            sheet,
        } = self;
        let poll = &mut inner.handle.registry.poll;
        let timeout = timeout_with(synthetic_events, timeout);
        let mut left = timeout;
        let mut retries = 63u8;
        let reported = loop {
            match poll.poll(left, events) {
                Ok(()) => break events.items.as_slice(),
                Err(error) if retries == 0 || error != Error::Interrupted => {
                    lose(events.items.as_slice(), sheet);
                    return Err(error);
                }
                Err(_) => retries -= 1,
            }
            if let Some(given) = timeout {
                match remaining(given, start, poll.now()) {
                    Some(time) => left = Some(time),
                    None => return Ok(()),
                }
            }
        };
        hand_out(inner, synthetic_events, reported, sheet)
    }
}

// Shows the hooks what was reported. Then a turn for each event: the hooks' first, then the
// poller's and the timers'.
fn hand_out<P: Poller, C: Clock, S: EventSource>(
    inner: &mut LoopInner<P, C, S>,
    synthetic_events: &mut Bounded<PollEvent, 128>,
    reported: &[PollEvent],
    sheet: &mut Sheet,
) -> Result<(), Error>
    requires sheet { sheet.old.items.items ≡ [] }
    requires errands { inner.old.errands ≡ [] }
    requires room { length reported.now ≤ 512 }
    ensures is { Between P.Poller C.Clock inner.old.handle.registry.poll inner.new.handle.registry.poll (λ w xs w'. Takes S.EventSource (hands_out S.EventSource synthetic_events.old.items.items reported.now (loop_of inner.old.handle w)) xs (handled reported.now (turns_as (outcome result) inner.new w' sheet.new.items.items))) }
    ensures none { synthetic_events.new.items.items ≡ [] }
{
    inner.before_handle_events(reported);
    let answer = inner.turns(synthetic_events.items.as_slice(), sheet);
    synthetic_events.items.clear();
    if let Err(error) = answer {
        lose(reported, sheet);
        return Err(error);
    }
    inner.turns(reported, sheet)
}

// While events of the hooks wait, a wait takes no time.
fn timeout_with(waiting: &Bounded<PollEvent, 128>, timeout: Option<u64>) -> Option<u64>
    ensures { result ≡ timeout_by waiting.now.items.items timeout }
{
    if waiting.items.is_empty() {
        timeout
    } else {
        Some(0)
    }
}

// Lets every source go, from the last slot down.
fn let_all_go<P: Poller, C: Clock, S: EventSource>(
    poll: &mut Poll<P, C>,
    sources: &mut SourceList<S>,
)
    ensures is { Between P.Poller C.Clock poll.old poll.new (λ w xs w'. Takes S.EventSource (vacates_all (reverse sources.old) w) xs w') }
    ensures none { sources.new ≡ [] }
{
    while let Some(slot) = sources.take_last() {
        vacate(poll, slot);
    }
}

// Lets go of the source that stands in the slot, if there is one.
fn vacate<P: Poller, C: Clock, S: EventSource>(poll: &mut Poll<P, C>, slot: Slot<S>)
    ensures { Between P.Poller C.Clock poll.old poll.new (λ w xs w'. Takes S.EventSource (vacates slot.place w) xs w') }
{
    let Slot {
        version: _,
        enabled: _,
        place,
    } = slot;
    match place {
        Place::Occupied(mut source) => {
            source.let_go(poll);
            source.end();
        }
        Place::Empty | Place::Handled => {}
    }
}
