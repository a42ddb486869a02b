// The sum of any two kinds is a kind.
ghost use Rattle.either.specs.Either.{SameSide, either};
ghost use Rattle.std.proofs.Common.{rules};

use crate::errand::{Errand, Reply};
use crate::errands::Errands;
use crate::events::EventIterator;
use crate::source::EventSource;
use crate::spare::Spare;
use either::{Either, for_both, map_both};
use poller::{Poller, Readiness};
use post_action::PostAction;
use sys::{Clock, Poll};
use token::{Error, Token, TokenFactory};

impl<A: EventSource, B: EventSource> EventSource for Either<A, B> {
    ghost means = { either A.EventSource.means B.EventSource.means };

    ghost registers = { λ s w d xs r s' w' d'. SameSide (λ a c. A.EventSource.registers a w d xs r c w' d') (λ a c. B.EventSource.registers a w d xs r c w' d') s s' };

    ghost reregisters = { λ s w d xs r s' w' d'. SameSide (λ a c. A.EventSource.reregisters a w d xs r c w' d') (λ a c. B.EventSource.reregisters a w d xs r c w' d') s s' };

    ghost unregisters = { λ s w xs r s' w'. SameSide (λ a c. A.EventSource.unregisters a w xs r c w') (λ a c. B.EventSource.unregisters a w xs r c w') s s' };

    ghost leaves = { λ s w xs s' w'. SameSide (λ a c. A.EventSource.leaves a w xs c w') (λ a c. B.EventSource.leaves a w xs c w') s s' };

    ghost processes = { λ s w x t es xs r s' w' es'. SameSide (λ a c. A.EventSource.processes a w x t es xs r c w' es') (λ a c. B.EventSource.processes a w x t es xs r c w' es') s s' };

    ghost hears = { λ s e x s'. SameSide (λ a c. A.EventSource.hears a e x c) (λ a c. B.EventSource.hears a e x c) s s' };

    ghost sleeps = { λ s r s'. SameSide (λ a c. A.EventSource.sleeps a r c) (λ a c. B.EventSource.sleeps a r c) s s' };

    ghost sees = { λ s vs s'. SameSide (λ a c. A.EventSource.sees a vs c) (λ a c. B.EventSource.sees a vs c) s s' };

    ghost ends = { λ s. SameSide (λ a c. A.EventSource.ends a) (λ a c. B.EventSource.ends a) s s };

    ghost registering = { Prim.search rules };

    ghost reregistering = { Prim.search rules };

    ghost unregistering = { Prim.search rules };

    ghost leaving = { Prim.search rules };

    ghost processing = { Prim.search rules };

    ghost hearing = { Prim.search rules };

    ghost sleeping = { Prim.search rules };

    ghost seeing = { Prim.search rules };

    // There is no delegation, so each call is named.
    fn register<P: Poller, C: Clock>(
        &mut self,
        poll: &mut Poll<P, C>,
        factory: &mut TokenFactory,
    ) -> Result<(), Error> {
        for_both!(self, kind => kind.register(poll, factory))
    }

    fn reregister<P: Poller, C: Clock>(
        &mut self,
        poll: &mut Poll<P, C>,
        factory: &mut TokenFactory,
    ) -> Result<(), Error> {
        for_both!(self, kind => kind.reregister(poll, factory))
    }

    fn unregister<P: Poller, C: Clock>(&mut self, poll: &mut Poll<P, C>) -> Result<(), Error> {
        for_both!(self, kind => kind.unregister(poll))
    }

    fn let_go<P: Poller, C: Clock>(&mut self, poll: &mut Poll<P, C>) {
        for_both!(self, kind => kind.let_go(poll))
    }

    fn end(self) {
        for_both!(self, kind => kind.end())
    }

    fn process_events<P: Poller, C: Clock>(
        &mut self,
        poll: &mut Poll<P, C>,
        readiness: Readiness,
        token: Token,
        errands: &mut Errands,
    ) -> Result<PostAction, Error> {
        for_both!(self, kind => kind.process_events(poll, readiness, token, errands))
    }

    fn told(&mut self, errand: Errand, answer: Result<Reply, Error>) {
        for_both!(self, kind => kind.told(errand, answer))
    }

    fn needs_hooks(&self) -> bool {
        for_both!(self, kind => kind.needs_hooks())
    }

    fn before_sleep(&mut self) -> Result<Option<(Readiness, Token)>, Error> {
        for_both!(self, kind => kind.before_sleep())
    }

    fn before_handle_events(&mut self, events: EventIterator<'_>) {
        for_both!(self, kind => kind.before_handle_events(events))
    }
}

impl<A: Spare, B: Spare> Spare for Either<A, B> {
    fn copy(&self) -> Self {
        map_both!(self, kind => kind.copy())
    }
}
