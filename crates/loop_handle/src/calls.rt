// The user's calls.
ghost use Rattle.std.specs.Prelude.{◌≡◌, IfOk};
ghost use Rattle.list.specs.Slots.{Calm};
ghost use Rattle.loop_handle.specs.State.{Performed, inserted_of, loop_over};
ghost use Rattle.model.specs.Calls.{disable_of, enable_of, idling_of, insert_of, remove_of, update_of};
ghost use Rattle.model.specs.Order.{Listed};
ghost use Rattle.model.specs.State.{new_loop};
ghost use Rattle.sys.specs.Polling.{state_of};
ghost use Rattle.token.specs.Refusal.{outcome};

use crate::handle::{InsertError, LoopHandle, Registry};
use kinds::EventSource;
use list::{Idles, Lifecycle, SourceList};
use poller::Poller;
use post_action::PostAction;
use std::alloc::{AllocError, Global};
use sys::{Clock, Poll};
use token::{Error, Token};

impl<P: Poller, C: Clock, S: EventSource> LoopHandle<P, C, S> {
    pub fn new(heap: Global, poller: P, clock: C) -> Result<LoopHandle<P, C, S>, AllocError>
    where
        P: Drop,
        C: Drop,
        ensures is { IfOk result (λ l. loop_over P.Poller l ≡ new_loop (P.Poller.entries poller) (P.Poller.most poller) P.Poller.LEVEL) }
        ensures poll { IfOk result (λ l. ((state_of l.registry.poll).poller ≡ poller) × ((state_of l.registry.poll).clock ≡ clock)) }
    {
        let poll = Poll::new(heap, poller, clock)?;
        let lifecycle = Lifecycle::new(heap)?;
        let idles = Idles::new(heap)?;
        let sources = SourceList::new(heap)?;
        Ok(LoopHandle {
            registry: Registry { poll, lifecycle },
            sources,
            idles,
            pending_action: PostAction::Continue,
        })
    }

    // Puts the source into a slot and registers it, or hands it back.
    pub fn insert(&mut self, mut source: S) -> Result<Token, InsertError<S>>
        ensures is { Performed P.Poller C.Clock S.EventSource (λ l. insert_of S.EventSource l source) self.old (inserted_of result) self.new }
        ensures calm { Calm self.old.sources → Calm self.new.sources }
        ensures listed { Listed self.old.sources self.old.registry.lifecycle → Listed self.new.sources self.new.registry.lifecycle }
    {
        let Some(token) = self.sources.vacant_entry() else {
            return Err(InsertError {
                inserted: source,
                error: Error::NoSlot,
            });
        };
        if let Err(error) = self.registry.register(&mut source, token) {
            self.registry.lifecycle.drop_all(token);
            return Err(InsertError {
                inserted: source,
                error,
            });
        }
        self.sources.put_back(token.id as usize, source, true);
        Ok(token)
    }

    // Registers a source that was unregistered.
    pub fn enable(&mut self, token: Token) -> Result<(), Error>
        ensures is { Performed P.Poller C.Clock S.EventSource (λ l. enable_of S.EventSource l token) self.old (outcome result) self.new }
        ensures calm { Calm self.old.sources → Calm self.new.sources }
        ensures listed { Listed self.old.sources self.old.registry.lifecycle → Listed self.new.sources self.new.registry.lifecycle }
    {
        let i = self.sources.fits(token).ok_or(Error::InvalidToken)?;
        if self.sources.is_handled(i) {
            return Err(Error::Busy);
        }
        if self.sources.is_enabled(i) {
            return Err(Error::AlreadyEnabled);
        }
        let mut source = self.sources.take_out(i);
        let answer = self.registry.register(&mut source, token);
        self.sources.put_back(i, source, answer.is_ok());
        answer
    }

    // Registers a source anew; one that is being handled, after its event.
    pub fn update(&mut self, token: Token) -> Result<(), Error>
        ensures is { Performed P.Poller C.Clock S.EventSource (λ l. update_of S.EventSource l token) self.old (outcome result) self.new }
        ensures calm { Calm self.old.sources → Calm self.new.sources }
        ensures listed { Listed self.old.sources self.old.registry.lifecycle → Listed self.new.sources self.new.registry.lifecycle }
    {
        let i = self.sources.fits(token).ok_or(Error::InvalidToken)?;
        if self.sources.is_handled(i) {
            self.pending_action = PostAction::Reregister;
            return Ok(());
        }
        let enabled = self.sources.is_enabled(i);
        let mut source = self.sources.take_out(i);
        let answer = self.registry.reregister(&mut source, token);
        let enabled = answer.map_or(enabled, |()| true);
        self.sources.put_back(i, source, enabled);
        answer
    }

    // Unregisters a source; one that is being handled, after its event.
    pub fn disable(&mut self, token: Token) -> Result<(), Error>
        ensures is { Performed P.Poller C.Clock S.EventSource (λ l. disable_of S.EventSource l token) self.old (outcome result) self.new }
        ensures calm { Calm self.old.sources → Calm self.new.sources }
        ensures listed { Listed self.old.sources self.old.registry.lifecycle → Listed self.new.sources self.new.registry.lifecycle }
    {
        let i = self.sources.fits(token).ok_or(Error::InvalidToken)?;
        if self.sources.is_handled(i) {
            self.pending_action = PostAction::Disable;
            return Ok(());
        }
        let enabled = self.sources.is_enabled(i);
        let mut source = self.sources.take_out(i);
        let answer = self.registry.unregister(&mut source, token);
        let enabled = answer.map_or(enabled, |()| false);
        self.sources.put_back(i, source, enabled);
        answer
    }

    // Empties the slot, and answers whether a source left. One that is being handled leaves after its event.
    pub fn remove(&mut self, token: Token) -> bool
        ensures is { Performed P.Poller C.Clock S.EventSource (λ l. remove_of S.EventSource l token) self.old result self.new }
        ensures calm { Calm self.old.sources → Calm self.new.sources }
        ensures listed { Calm self.old.sources → Listed self.old.sources self.old.registry.lifecycle → Listed self.new.sources self.new.registry.lifecycle }
    {
        let Some(i) = self.sources.fits(token) else {
            return false;
        };
        if self.sources.is_handled(i) {
            self.sources.empty(i);
            return true;
        }
        let source = self.sources.take_out(i);
        self.sources.empty(i);
        self.registry.release(source, token);
        true
    }

    // Lets a value wait for the idle handler, and answers its ticket.
    pub fn idle(&mut self, value: u32) -> Result<u32, Error>
        ensures is { Performed P.Poller C.Clock S.EventSource (λ l. idling_of l value) self.old (outcome result) self.new }
        ensures calm { Calm self.old.sources → Calm self.new.sources }
        ensures listed { Listed self.old.sources self.old.registry.lifecycle → Listed self.new.sources self.new.registry.lifecycle }
    {
        self.idles.enter(value)
    }
}
