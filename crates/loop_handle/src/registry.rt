// The registration of a source, with its lifecycle entries.
ghost use Rattle.model.specs.Calls.{admits, listed, releases, renews, withdraws};
ghost use Rattle.list.specs.Entries.{left};
ghost use Rattle.model.specs.Course.{Takes};
ghost use Rattle.model.specs.Order.{Joins};
ghost use Rattle.std.specs.Prelude.{◌≡◌};
ghost use Rattle.sys.specs.World.{Between};
ghost use Rattle.token.specs.Refusal.{outcome};

use crate::handle::Registry;
use kinds::EventSource;
use list::Lifecycle;
use poller::Poller;
use sys::Clock;
use token::{Error, Token, TokenFactory};

impl<P: Poller, C: Clock> Registry<P, C> {
    // The lifecycle entry first, then the registration.
    pub fn register<S: EventSource>(&mut self, source: &mut S, token: Token) -> Result<(), Error>
        ensures is { Between P.Poller C.Clock self.old.poll self.new.poll (λ w xs w'. Takes S.EventSource (admits S.EventSource self.old.lifecycle w source.old token) xs (record { answer = outcome result; source = source.new; lifecycle = self.new.lifecycle; world = w' })) }
        ensures joins { Joins token self.old.lifecycle self.new.lifecycle }
    {
        enter(&mut self.lifecycle, source.needs_hooks(), token)?;
        source.register(&mut self.poll, &mut TokenFactory::new(token))
    }

    // Registers anew, and then enters one lifecycle entry more.
    pub fn reregister<S: EventSource>(&mut self, source: &mut S, token: Token) -> Result<(), Error>
        ensures is { Between P.Poller C.Clock self.old.poll self.new.poll (λ w xs w'. Takes S.EventSource (renews S.EventSource self.old.lifecycle w source.old token) xs (record { answer = outcome result; source = source.new; lifecycle = self.new.lifecycle; world = w' })) }
        ensures joins { Joins token self.old.lifecycle self.new.lifecycle }
    {
        let hooks = source.needs_hooks();
        if hooks && self.lifecycle.is_full() {
            return Err(Error::LifecycleFull);
        }
        source.reregister(&mut self.poll, &mut TokenFactory::new(token))?;
        enter(&mut self.lifecycle, hooks, token)
    }

    // An accepted unregister drops the source's lifecycle entries.
    pub fn unregister<S: EventSource>(&mut self, source: &mut S, token: Token) -> Result<(), Error>
        ensures is { Between P.Poller C.Clock self.old.poll self.new.poll (λ w xs w'. Takes S.EventSource (withdraws S.EventSource self.old.lifecycle w source.old token) xs (record { answer = outcome result; source = source.new; lifecycle = self.new.lifecycle; world = w' })) }
        ensures joins { Joins token self.old.lifecycle self.new.lifecycle }
    {
        source.unregister(&mut self.poll)?;
        self.lifecycle.drop_all(token);
        Ok(())
    }

    // Unregisters a source that left its slot, and lets it go where that is refused.
    pub fn release<S: EventSource>(&mut self, mut source: S, token: Token)
        ensures is { Between P.Poller C.Clock self.old.poll self.new.poll (λ w xs w'. Takes S.EventSource (releases S.EventSource self.old.lifecycle w source token) xs (record { lifecycle = self.new.lifecycle; world = w' })) }
        ensures gone { self.new.lifecycle ≡ left token self.old.lifecycle }
    {
        let answer = source.unregister(&mut self.poll);
        self.lifecycle.drop_all(token);
        if answer.is_ok() {
            source.end();
            return;
        }
        source.let_go(&mut self.poll);
        source.end();
    }
}

// The lifecycle entry of a source that wants hooks.
fn enter(lifecycle: &mut Lifecycle, hooks: bool, token: Token) -> Result<(), Error>
    ensures { (outcome result, lifecycle.new) ≡ listed hooks token lifecycle.old }
{
    if !hooks {
        return Ok(());
    }
    lifecycle.enter(token)
}
