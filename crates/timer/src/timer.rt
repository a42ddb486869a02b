// A source that rings at a deadline.
ghost use Rattle.alarm.specs.Calls.{cancel_by, meaning, register_by, reregister_by};
ghost use Rattle.rules.specs.Calls.{came, went};
ghost use Rattle.std.specs.Prelude.{◌≡◌, None};
ghost use Rattle.timer.specs.Events.{Rung, timer_until};
ghost use Rattle.token.specs.Refusal.{done};
ghost use Rattle.alarm.proofs.Laws.{registers_lawful, reregisters_lawful, unregisters_lawful, leaves_lawful};
ghost use Rattle.timer.specs.Laws.{processes_lawful};
ghost use Rattle.std.proofs.Common.{rules};

use crate::handler::TimerHandler;
use alarm::Alarm;
use kinds::{Errand, Errands, EventIterator, EventSource, Reply, Spare};
use poller::{Poller, Readiness};
use post_action::PostAction;
use sys::{Clock, Poll};
use token::{Error, Token, TokenFactory};

#[derive(Drop)]
pub struct Timer<H> {
    pub(crate) alarm: Alarm,
    pub(crate) handler: H,
}

impl<H: TimerHandler> Timer<H> {
    // A new one has no registration.
    pub fn from_deadline(deadline: u64, handler: H) -> Timer<H>
        ensures { result ≡ timer_until deadline handler }
    {
        Timer {
            alarm: Alarm::from_deadline(deadline),
            handler,
        }
    }
}

// A handler cannot be copied here, so each call of it is made on the one that the timer has.
impl<H: TimerHandler + Drop> EventSource for Timer<H> {
    ghost means = { λ s. meaning s.alarm };

    ghost registers = { λ s w d xs r s' w' d'. (came xs r s'.alarm w' d' ≡ register_by s.alarm s.alarm.deadline w d) × (s'.handler ≡ s.handler) };

    ghost reregisters = { λ s w d xs r s' w' d'. (came xs r s'.alarm w' d' ≡ reregister_by s.alarm w d) × (s'.handler ≡ s.handler) };

    ghost unregisters = { λ s w xs r s' w'. (went xs r s'.alarm w' ≡ cancel_by s.alarm w) × (s'.handler ≡ s.handler) };

    ghost leaves = { λ s w xs s' w'. (went xs (done tt) s'.alarm w' ≡ cancel_by s.alarm w) × (s'.handler ≡ s.handler) };

    ghost processes = { λ s w x t es xs r s' w' es'. Rung H.TimerHandler.rings s t es w xs r s' w' es' };

    ghost hears = { λ s e a s'. s' ≡ s };

    ghost sleeps = { λ s r s'. (r ≡ done None) × (s' ≡ s) };

    ghost sees = { λ s vs s'. s' ≡ s };

    ghost ends = { λ s. Unit {0} };

    ghost registering = { λ s w d xs r s' w' d' h. registers_lawful s.alarm w d (came xs r s'.alarm w' d') h.0 };

    ghost reregistering = { λ s w d xs r s' w' d' h. reregisters_lawful s.alarm w d (came xs r s'.alarm w' d') h.0 };

    ghost unregistering = { λ s w xs r s' w' h. unregisters_lawful s.alarm w (went xs r s'.alarm w') h.0 };

    ghost leaving = { λ s w xs s' w' h. leaves_lawful s.alarm w (went xs (done tt) s'.alarm w') h.0 };

    ghost processing = { λ s w x t es xs r s' w' es' h. processes_lawful H.TimerHandler.rings H.TimerHandler.ringing s t es w xs r s' w' es' h };

    ghost hearing = { Prim.search rules };

    ghost sleeping = { Prim.search rules };

    ghost seeing = { Prim.search rules };

    // The calls for its deadline are those of Alarm: there is no delegation, so each is named.
    fn register<P: Poller, C: Clock>(
        &mut self,
        poll: &mut Poll<P, C>,
        factory: &mut TokenFactory,
    ) -> Result<(), Error> {
        self.alarm.register(poll, factory)
    }

    fn reregister<P: Poller, C: Clock>(
        &mut self,
        poll: &mut Poll<P, C>,
        factory: &mut TokenFactory,
    ) -> Result<(), Error> {
        self.alarm.reregister(poll, factory)
    }

    fn unregister<P: Poller, C: Clock>(&mut self, poll: &mut Poll<P, C>) -> Result<(), Error> {
        self.alarm.cancel(poll);
        Ok(())
    }

    fn let_go<P: Poller, C: Clock>(&mut self, poll: &mut Poll<P, C>) {
        self.alarm.cancel(poll);
    }

    fn end(self) {}

    // Rings, and enters the next deadline under the counter that it has.
    fn process_events<P: Poller, C: Clock>(
        &mut self,
        poll: &mut Poll<P, C>,
        _readiness: Readiness,
        token: Token,
        errands: &mut Errands,
    ) -> Result<PostAction, Error> {
        let Some((registration, deadline)) = self.alarm.due(token) else {
            return Ok(PostAction::Continue);
        };
        let action = self.handler.ring(deadline, errands);
        self.alarm.follow(poll, registration, action)
    }

    fn told(&mut self, _errand: Errand, _answer: Result<Reply, Error>) {}

    // No hooks, said call by call: what each may come to is this kind's own.
    fn needs_hooks(&self) -> bool {
        false
    }

    fn before_sleep(&mut self) -> Result<Option<(Readiness, Token)>, Error> {
        Ok(None)
    }

    fn before_handle_events(&mut self, _events: EventIterator<'_>) {}
}

impl<H: TimerHandler + Copy> Spare for Timer<H> {
    fn copy(&self) -> Self {
        Timer {
            alarm: self.alarm,
            handler: self.handler,
        }
    }
}
