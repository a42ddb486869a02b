// The turn of one event.
ghost use Rattle.std.specs.Prelude.{◌≡◌, ℕ, List};
ghost use Rattle.list.specs.Slots.{Apart, Calm, fitting};
ghost use Rattle.loop_handle.specs.State.{Orderly, loop_of};
ghost use Rattle.model.specs.Course.{Takes};
ghost use Rattle.model.specs.Dispatch.{acts, noted_at, settles, turn_of};
ghost use Rattle.model.specs.Order.{Listed, ListedBut};
ghost use Rattle.turns.specs.Turns.{OthersUntouched, turn_as};
ghost use Rattle.sys.specs.World.{Between};
ghost use Rattle.token.specs.Refusal.{outcome};
ghost use Rattle.token.specs.declared.token.Token.{Token};

use crate::decide::decide;
use crate::inner::LoopInner;
use kinds::EventSource;
use list::SourceList;
use loop_handle::{LoopHandle, Registry};
use poller::Poller;
use post_action::PostAction;
use sheet::Verdict;
use std::mem;
use sys::{Clock, PollEvent};
use token::{Error, Token};

impl<P: Poller, C: Clock, S: EventSource> LoopInner<P, C, S> {
    // Hands the event to the source that its token fits. A fault stops the dispatch; the source was called before it.
    pub fn turn(&mut self, event: PollEvent) -> Result<Verdict, Error>
        ensures leaves { (h : List ℕ) (v : List Token) → Orderly P.Poller S.EventSource h v self.old.handle → OthersUntouched P.Poller S.EventSource event.token.id self.old.handle self.new.handle }
        ensures is { Between P.Poller C.Clock self.old.handle.registry.poll self.new.handle.registry.poll (λ w xs w'. Takes S.EventSource (turn_of S.EventSource (loop_of self.old.handle w) event) xs (turn_as result self.new w')) }
    {
        let LoopInner { handle, errands } = self;
        errands.clear();
        let LoopHandle {
            registry,
            sources,
            pending_action,
            idles: _,
        } = handle;
        let token = event.token.forget_sub_id();
        let Some(i) = sources.fits(token) else {
            return Ok(Verdict::Stale);
        };
        let mut source = sources.take_out(i);
        let poll = &mut registry.poll;
        let answer = source.process_events(poll, event.readiness, event.token, errands);
        let pending = mem::replace(pending_action, PostAction::Continue);
        let action = decide(answer, pending);
        let acted = act(registry, action, &mut source, token, sources);
        // the source's own fault goes before that of the action
        let fate = settle(registry, source, token, sources, answer.and(acted));
        fate.map(|()| Verdict::Delivered)
    }
}

// What the source answered, or was asked for it, is done on the value in hand. Value, token and slots are handed over
// one by one, here and in `settle`: a struct of them would borrow the slots, and be made for these two calls alone.
fn act<P: Poller, C: Clock, S: EventSource>(
    registry: &mut Registry<P, C>,
    action: PostAction,
    source: &mut S,
    token: Token,
    sources: &mut SourceList<S>,
) -> Result<(), Error>
    requires apart { Apart sources.old token }
    requires listed { ListedBut token sources.old registry.old.lifecycle }
    ensures apart { Apart sources.new token }
    ensures listed { ListedBut token sources.new registry.new.lifecycle }
    ensures is { Between P.Poller C.Clock registry.old.poll registry.new.poll (λ w xs w'. Takes S.EventSource (acts S.EventSource action token sources.old registry.old.lifecycle w source.old) xs (record { answer = outcome result; source = source.new; slots = sources.new; lifecycle = registry.new.lifecycle; world = w' })) }
{
    match action {
        PostAction::Continue => Ok(()),
        PostAction::Reregister => {
            registry.reregister(source, token)?;
            mark(sources, token, true);
            Ok(())
        }
        PostAction::Disable => {
            registry.unregister(source, token)?;
            mark(sources, token, false);
            Ok(())
        }
        PostAction::Remove => {
            if let Some(i) = sources.fits(token) {
                sources.empty(i);
            }
            Ok(())
        }
    }
}

// Notes in its slot, if it still has it, whether the source in hand is enabled.
fn mark<S>(sources: &mut SourceList<S>, token: Token, enabled: bool)
    requires { Apart sources.old token }
    ensures apart { Apart sources.new token }
    ensures fits { (u : Token) → fitting sources.new u ≡ fitting sources.old u }
    ensures is { sources.new ≡ noted_at (fitting sources.old token) sources.old enabled }
{
    if let Some(i) = sources.fits(token) {
        sources.set_enabled(i, enabled);
    }
}

// The value in hand goes back to its slot, or is let go where the token fits none any more.
// The turn's fate is handed on.
fn settle<P: Poller, C: Clock, S: EventSource>(
    registry: &mut Registry<P, C>,
    mut source: S,
    token: Token,
    sources: &mut SourceList<S>,
    fate: Result<(), Error>,
) -> Result<(), Error>
    requires apart { Apart sources.old token }
    requires listed { ListedBut token sources.old registry.old.lifecycle }
    ensures calm { Calm sources.new }
    ensures listed { Listed sources.new registry.new.lifecycle }
    ensures fate { result ≡ fate }
    ensures is { Between P.Poller C.Clock registry.old.poll registry.new.poll (λ w xs w'. Takes S.EventSource (settles (fitting sources.old token) (outcome fate) token sources.old registry.old.lifecycle w source) xs (record { slots = sources.new; lifecycle = registry.new.lifecycle; world = w' })) }
{
    if let Some(i) = sources.fits(token) {
        sources.fill(i, source);
        return fate;
    }
    if fate.is_ok() {
        // a refusal is not answered: the source is let go in any case
        let _ = source.unregister(&mut registry.poll);
    }
    source.let_go(&mut registry.poll);
    source.end();
    registry.lifecycle.drop_all(token);
    fate
}
