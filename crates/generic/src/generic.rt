// A source over one file.
ghost use Rattle.generic.specs.Events.{Handled, generic_over};
ghost use Rattle.one_file.specs.Calls.{Leaves, Registers, Reregisters, Unregisters, meaning};
ghost use Rattle.one_file.specs.Alone.{one_token};
ghost use Rattle.std.specs.Prelude.{◌≡◌, false, None};
ghost use Rattle.token.specs.Refusal.{done};
ghost use Rattle.one_file.proofs.Laws.{registers_lawful, reregisters_lawful, unregisters_lawful, leaves_lawful};
ghost use Rattle.one_file.proofs.Alone.{one_drawn};
ghost use Rattle.generic.specs.Laws.{processes_lawful};
ghost use Rattle.std.proofs.Common.{rules};

use crate::handler::GenericHandler;
use kinds::{Errand, Errands, EventIterator, EventSource, Reply, Spare};
use one_file::OneFile;
use poller::{Interest, Mode, Poller, Readiness};
use post_action::PostAction;
use sys::{Clock, Poll};
use token::{Error, Token, TokenFactory};

// Neither Clone nor Copy: where it is called no event can go to a copy of its handler.
#[derive(Drop)]
pub struct Generic<H> {
    pub(crate) file: OneFile<Token>,
    pub(crate) handler: H,
}

impl<H: GenericHandler> Generic<H> {
    // A new one holds nothing.
    pub fn new(file: u32, interest: Interest, mode: Mode, handler: H) -> Generic<H>
        ensures { result ≡ generic_over file interest mode handler }
    {
        Generic {
            file: OneFile::new(file, interest, mode),
            handler,
        }
    }
}

impl<H: GenericHandler + Drop> EventSource for Generic<H> {
    ghost means = { λ s. meaning one_token s.file false };

    ghost registers = { λ s w d xs r s' w' d'. Registers one_token s.file w d xs r s'.file w' d' × (s'.handler ≡ s.handler) };

    ghost reregisters = { λ s w d xs r s' w' d'. Reregisters one_token s.file w d xs r s'.file w' d' × (s'.handler ≡ s.handler) };

    ghost unregisters = { λ s w xs r s' w'. Unregisters s.file w xs r s'.file w' × (s'.handler ≡ s.handler) };

    ghost leaves = { λ s w xs s' w'. Leaves s.file w xs s'.file w' × (s'.handler ≡ s.handler) };

    ghost processes = { λ s w x t es xs r s' w' es'. Handled H.GenericHandler.handles s x t es w xs r s' w' es' };

    ghost hears = { λ s e a s'. s' ≡ s };

    ghost sleeps = { λ s r s'. (r ≡ done None) × (s' ≡ s) };

    ghost sees = { λ s vs s'. s' ≡ s };

    ghost ends = { λ s. Unit {0} };

    ghost registering = { λ s w d xs r s' w' d' h. registers_lawful one_token false s.file one_drawn w d xs r s'.file w' d' h.0 };

    ghost reregistering = { λ s w d xs r s' w' d' h. reregisters_lawful one_token false s.file one_drawn w d xs r s'.file w' d' h.0 };

    ghost unregistering = { λ s w xs r s' w' h. unregisters_lawful one_token false s.file w xs r s'.file w' h.0 };

    ghost leaving = { λ s w xs s' w' h. leaves_lawful one_token false s.file w xs s'.file w' h.0 };

    ghost processing = { λ s w x t es xs r s' w' es' h. processes_lawful H.GenericHandler.handles H.GenericHandler.handling s x t es w xs r s' w' es' h };

    ghost hearing = { Prim.search rules };

    ghost sleeping = { Prim.search rules };

    ghost seeing = { Prim.search rules };

    // The four calls for its file are those of OneFile: there is no delegation, so each is named.
    fn register<P: Poller, C: Clock>(
        &mut self,
        poll: &mut Poll<P, C>,
        factory: &mut TokenFactory,
    ) -> Result<(), Error> {
        self.file.register(poll, factory)
    }

    fn reregister<P: Poller, C: Clock>(
        &mut self,
        poll: &mut Poll<P, C>,
        factory: &mut TokenFactory,
    ) -> Result<(), Error> {
        self.file.reregister(poll, factory)
    }

    fn unregister<P: Poller, C: Clock>(&mut self, poll: &mut Poll<P, C>) -> Result<(), Error> {
        self.file.unregister(poll)
    }

    fn let_go<P: Poller, C: Clock>(&mut self, poll: &mut Poll<P, C>) {
        self.file.let_go(poll);
    }

    fn end(self) {}

    // An event under another token is not its own any more.
    fn process_events<P: Poller, C: Clock>(
        &mut self,
        _poll: &mut Poll<P, C>,
        readiness: Readiness,
        token: Token,
        errands: &mut Errands,
    ) -> Result<PostAction, Error> {
        if self.file.tickets() != Some(token) {
            return Ok(PostAction::Continue);
        }
        self.handler.handle(readiness, errands)
    }

    fn told(&mut self, _errand: Errand, _answer: Result<Reply, Error>) {}

    // No hooks, said call by call: what each may come to is this kind's own.
    fn needs_hooks(&self) -> bool {
        false
    }

    fn before_sleep(&mut self) -> Result<Option<(Readiness, Token)>, Error> {
        Ok(None)
    }

    fn before_handle_events(&mut self, _events: EventIterator<'_>) {}
}

impl<H: GenericHandler + Copy> Spare for Generic<H> {
    fn copy(&self) -> Self {
        Generic {
            file: self.file,
            handler: self.handler,
        }
    }
}
