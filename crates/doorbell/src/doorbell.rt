// A doorbell and its two tokens, with its calls.
ghost use Rattle.doorbell.specs.Bell.{Counts, wanted};
ghost use Rattle.doorbell.specs.Tickets.{two_tokens};
ghost use Rattle.one_file.specs.Calls.{Leaves, Registers, Reregisters, Unregisters, meaning};
ghost use Rattle.poller.specs.declared.entry.Mode.TheVariants.{Level};
ghost use Rattle.post_action.specs.declared.PostAction.TheVariants.{Continue};
ghost use Rattle.std.specs.Prelude.{◌≡◌, true, false, [], None};
ghost use Rattle.token.specs.Refusal.{done};
ghost use Rattle.one_file.proofs.Laws.{registers_lawful, reregisters_lawful, unregisters_lawful, leaves_lawful};
ghost use Rattle.doorbell.specs.Laws.{two_drawn};
ghost use Rattle.std.proofs.Common.{rules};

use kinds::{Errand, Errands, EventIterator, EventSource, Reply, Spare};
use one_file::OneFile;
use poller::{Interest, Mode, Poller, Readiness};
use post_action::PostAction;
use sys::{Clock, Poll};
use token::{Error, Token, TokenFactory};

// The token of the file, and that of the synthetic events.
#[derive(Clone, Copy)]
pub struct Tokens {
    pub(crate) first: Token,
    pub(crate) second: Token,
}

// A source that counts how often its file rang, and hands the rings out one by one.
#[derive(Clone, Copy)]
pub struct Doorbell {
    pub(crate) file: OneFile<Tokens>,
    pub(crate) count: u32,
}

impl Doorbell {
    // A new one holds nothing, and has not rung.
    pub fn new(file: u32) -> Doorbell
        ensures { result ≡ record { file = record { file = file; interest = record { readable = true; writable = false }; mode = Level; tickets = None }; count = 0 } }
    {
        Doorbell {
            file: OneFile::new(file, Interest::READ, Mode::Level),
            count: 0,
        }
    }

    // How many rings are not handed out yet.
    pub fn count(&self) -> u32
        ensures { result ≡ self.now.count }
    {
        self.count
    }

    // The count after an event under the token.
    fn count_after(&self, token: Token) -> u32
        ensures { Counts self.now.file.tickets token self.now.count result }
    {
        match self.file.tickets() {
            Some(tokens) if tokens.first == token => self.count.saturating_add(1),
            Some(tokens) if tokens.second == token => self.count.saturating_sub(1),
            _ => self.count,
        }
    }
}

impl EventSource for Doorbell {
    ghost means = { λ s. meaning two_tokens s.file true };

    ghost registers = { λ s w d xs r s' w' d'. Registers two_tokens s.file w d xs r s'.file w' d' × (s'.count ≡ s.count) };

    ghost reregisters = { λ s w d xs r s' w' d'. Reregisters two_tokens s.file w d xs r s'.file w' d' × (s'.count ≡ s.count) };

    ghost unregisters = { λ s w xs r s' w'. Unregisters s.file w xs r s'.file w' × (s'.count ≡ s.count) };

    ghost leaves = { λ s w xs s' w'. Leaves s.file w xs s'.file w' × (s'.count ≡ s.count) };

    ghost processes = { λ s w x t es xs r s' w' es'. (xs ≡ []) × (r ≡ done Continue) × (s'.file ≡ s.file) × Counts s.file.tickets t s.count s'.count × (w' ≡ w) × (es' ≡ es) };

    ghost hears = { λ s e a s'. s' ≡ s };

    ghost sleeps = { λ s r s'. (r ≡ done (wanted s.file.tickets s.count)) × (s' ≡ s) };

    ghost sees = { λ s vs s'. s' ≡ s };

    ghost ends = { λ s. Unit {0} };

    ghost registering = { λ s w d xs r s' w' d' h. registers_lawful two_tokens true s.file two_drawn w d xs r s'.file w' d' h.0 };

    ghost reregistering = { λ s w d xs r s' w' d' h. reregisters_lawful two_tokens true s.file two_drawn w d xs r s'.file w' d' h.0 };

    ghost unregistering = { λ s w xs r s' w' h. unregisters_lawful two_tokens true s.file w xs r s'.file w' h.0 };

    ghost leaving = { λ s w xs s' w' h. leaves_lawful two_tokens true s.file w xs s'.file w' h.0 };

    ghost processing = { Prim.search rules };

    ghost hearing = { Prim.search rules };

    ghost sleeping = { Prim.search rules };

    ghost seeing = { Prim.search rules };

    // The four calls for its file are those of OneFile: there is no delegation, so each is named.
    fn register<P: Poller, C: Clock>(
        &mut self,
        poll: &mut Poll<P, C>,
        factory: &mut TokenFactory,
    ) -> Result<(), Error> {
        self.file.register(poll, factory)
    }

    fn reregister<P: Poller, C: Clock>(
        &mut self,
        poll: &mut Poll<P, C>,
        factory: &mut TokenFactory,
    ) -> Result<(), Error> {
        self.file.reregister(poll, factory)
    }

    fn unregister<P: Poller, C: Clock>(&mut self, poll: &mut Poll<P, C>) -> Result<(), Error> {
        self.file.unregister(poll)
    }

    fn let_go<P: Poller, C: Clock>(&mut self, poll: &mut Poll<P, C>) {
        self.file.let_go(poll);
    }

    fn end(self) {}

    // The first token's event adds one to the count, and the second's takes one off.
    fn process_events<P: Poller, C: Clock>(
        &mut self,
        _poll: &mut Poll<P, C>,
        _readiness: Readiness,
        token: Token,
        _errands: &mut Errands,
    ) -> Result<PostAction, Error> {
        self.count = self.count_after(token);
        Ok(PostAction::Continue)
    }

    fn told(&mut self, _errand: Errand, _answer: Result<Reply, Error>) {}

    fn needs_hooks(&self) -> bool {
        true
    }

    // While the count is above 0 it has an event of its own.
    fn before_sleep(&mut self) -> Result<Option<(Readiness, Token)>, Error> {
        let readiness = Readiness::READ;
        match self.file.tickets() {
            Some(tokens) if self.count > 0 => Ok(Some((readiness, tokens.second))),
            _ => Ok(None),
        }
    }

    fn before_handle_events(&mut self, _events: EventIterator<'_>) {}
}

impl Spare for Doorbell {
    fn copy(&self) -> Self {
        *self
    }
}
