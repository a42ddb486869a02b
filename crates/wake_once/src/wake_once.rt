// Wakes the loop once after each registration.
ghost use Rattle.rules.specs.Calls.{came, went};
ghost use Rattle.std.specs.Prelude.{◌≡◌, None};
ghost use Rattle.token.specs.Refusal.{done};
ghost use Rattle.wake_once.specs.Calls.{meaning, process_by, register_by, unregister_by, wanted};
ghost use Rattle.std.proofs.Common.{rules};

use kinds::{Errand, Errands, EventIterator, EventSource, Reply, Spare};
use poller::{Poller, Readiness};
use post_action::PostAction;
use sys::{Clock, Poll};
use token::{Error, Token, TokenFactory};

// The token of a registration, and whether its event is still to come.
#[derive(Clone, Copy)]
pub struct Registration {
    pub(crate) token: Token,
    pub(crate) due: bool,
}

#[derive(Clone, Copy)]
pub struct WakeOnce {
    // none while it is not registered
    pub(crate) registration: Option<Registration>,
}

impl WakeOnce {
    // A new one is not registered.
    pub fn new() -> WakeOnce
        ensures { result ≡ record { registration = None } }
    {
        WakeOnce { registration: None }
    }
}

impl EventSource for WakeOnce {
    ghost means = { meaning };

    ghost registers = { λ s w d xs r s' w' d'. came xs r s' w' d' ≡ register_by w d };

    // as a register: the old token is forgotten, whether or not a new one is drawn
    ghost reregisters = { λ s w d xs r s' w' d'. came xs r s' w' d' ≡ register_by w d };

    // accepted also where it is not registered
    ghost unregisters = { λ s w xs r s' w'. went xs r s' w' ≡ unregister_by w };

    ghost leaves = { λ s w xs s' w'. went xs (done tt) s' w' ≡ unregister_by w };

    ghost processes = { λ s w x t es xs r s' w' es'. (went xs r s' w' ≡ process_by s t w) × (es' ≡ es) };

    ghost hears = { λ s e a s'. s' ≡ s };

    ghost sleeps = { λ s r s'. (r ≡ done (wanted s.registration)) × (s' ≡ s) };

    ghost sees = { λ s vs s'. s' ≡ s };

    ghost ends = { λ s. Unit {0} };

    ghost registering = { Prim.search rules };

    ghost reregistering = { Prim.search rules };

    ghost unregistering = { Prim.search rules };

    ghost leaving = { Prim.search rules };

    ghost processing = { Prim.search rules };

    ghost hearing = { Prim.search rules };

    ghost sleeping = { Prim.search rules };

    ghost seeing = { Prim.search rules };

    // A refused draw leaves it without a registration.
    fn register<P: Poller, C: Clock>(
        &mut self,
        poll: &mut Poll<P, C>,
        factory: &mut TokenFactory,
    ) -> Result<(), Error> {
        self.let_go(poll);
        let token = factory.token()?;
        self.registration = Some(Registration { token, due: true });
        Ok(())
    }

    fn reregister<P: Poller, C: Clock>(
        &mut self,
        poll: &mut Poll<P, C>,
        factory: &mut TokenFactory,
    ) -> Result<(), Error> {
        self.register(poll, factory)
    }

    fn unregister<P: Poller, C: Clock>(&mut self, poll: &mut Poll<P, C>) -> Result<(), Error> {
        self.let_go(poll);
        Ok(())
    }

    fn let_go<P: Poller, C: Clock>(&mut self, _poll: &mut Poll<P, C>) {
        self.registration = None;
    }

    fn end(self) {}

    // An event under another token is not its own.
    fn process_events<P: Poller, C: Clock>(
        &mut self,
        _poll: &mut Poll<P, C>,
        _readiness: Readiness,
        token: Token,
        _errands: &mut Errands,
    ) -> Result<PostAction, Error> {
        match &mut self.registration {
            Some(registration) if registration.token == token => registration.due = false,
            _ => {}
        }
        Ok(PostAction::Continue)
    }

    fn told(&mut self, _errand: Errand, _answer: Result<Reply, Error>) {}

    fn needs_hooks(&self) -> bool {
        true
    }

    fn before_sleep(&mut self) -> Result<Option<(Readiness, Token)>, Error> {
        match self.registration {
            Some(registration) if registration.due => {
                Ok(Some((Readiness::READ, registration.token)))
            }
            _ => Ok(None),
        }
    }

    fn before_handle_events(&mut self, _events: EventIterator<'_>) {}
}

impl Spare for WakeOnce {
    fn copy(&self) -> Self {
        *self
    }
}
