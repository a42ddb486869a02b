// The hooks around a wait.
ghost use Rattle.std.specs.Prelude.{◌≡◌, [], Some};
ghost use Rattle.std.specs.Fn.{FnOnceReturnsAtMut};
ghost use Rattle.list.specs.Slots.{Calm, fitting, placed};
ghost use Rattle.list.specs.declared.slots.Place.TheVariants.{Occupied};
ghost use Rattle.loop_handle.specs.State.{with_sources};
ghost use Rattle.model.specs.Calls.{standing_at};
ghost use Rattle.model.specs.Course.{Takes};
ghost use Rattle.model.specs.Dispatch.{asks_hooks, hooked_by, shows_hooks};
ghost use Rattle.token.specs.Refusal.{outcome};
ghost use Rattle.token.specs.declared.token.Token.{Token};

use crate::inner::LoopInner;
use bounded::Bounded;
use kinds::{EventIterator, EventSource};
use list::SourceList;
use loop_handle::LoopHandle;
use poller::Poller;
use sys::{Class, Clock, PollEvent};
use token::{Error, Token};

// Each loop states `Calm` in an invariant of its own: an invariant is over the variables of its function.
impl<P: Poller, C: Clock, S: EventSource> LoopInner<P, C, S> {
    // Queues what the hooks answer. An event that found no wait yet stays in front.
    pub fn before_sleep(&mut self, queue: &mut Bounded<PollEvent, 128>) -> Result<(), Error>
        ensures is { Takes S.EventSource (asks_hooks self.old.handle.registry.lifecycle self.old.handle.sources queue.old.items.items) [] (hooked_by (outcome result) self.new.handle.sources queue.new.items.items) }
        ensures same { self.new.handle ≡ with_sources self.old.handle self.new.handle.sources }
        ensures errands { self.new.errands ≡ self.old.errands }
    {
        let LoopHandle {
            registry,
            sources,
            ..
        } = &mut self.handle;
        for &token in registry.lifecycle.as_slice() {
            if queue.is_full() {
                return Err(Error::SyntheticFull);
            }
            let answer = ask(sources, token, |source| source.before_sleep())?;
            if let Some((readiness, token)) = answer {
                queue.items.push_reserved(PollEvent {
                    class: Class::Synthetic,
                    readiness,
                    token,
                });
            }
        }
        Ok(())
    }

    // Shows the source of each lifecycle entry what the wait brought.
    pub fn before_handle_events(&mut self, events: &[PollEvent])
        ensures is { Takes S.EventSource (shows_hooks events.now self.old.handle.registry.lifecycle self.old.handle.sources) [] self.new.handle.sources }
        ensures same { self.new.handle ≡ with_sources self.old.handle self.new.handle.sources }
        ensures errands { self.new.errands ≡ self.old.errands }
    {
        let LoopHandle {
            registry,
            sources,
            ..
        } = &mut self.handle;
        for &token in registry.lifecycle.as_slice() {
            ask(
                sources,
                token,
                |source| source.before_handle_events(EventIterator::new(token, events)),
            );
        }
    }
}

// Calls the source of a lifecycle entry where it stands.
fn ask<S, R, F: FnOnce(&mut S) -> R>(sources: &mut SourceList<S>, token: Token, ask: F) -> R
    requires calm { Calm sources.old }
    requires fits { fitting sources.old token ≡ Some token.id }
    requires callable { F.IsAlwaysCallable ask }
    ensures calm { Calm sources.new }
    ensures fits { (u : Token) → fitting sources.new u ≡ fitting sources.old u }
    ensures asked { (s : S) × (s' : S) × (standing_at sources.old (fitting sources.old token) ≡ Occupied s) × (sources.new ≡ placed sources.old token.id (Occupied s')) × FnOnceReturnsAtMut F.FnOnce ask s result s' }
{
    let Some(slot) = sources.fits(token) else {
        unreachable()
    };
    sources.with_source(slot, ask)
}
