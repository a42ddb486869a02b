// One file of a source, and what was drawn when it was last registered.
ghost use Rattle.one_file.specs.Calls.{Leaves, Registers, Reregisters, Unregisters};
ghost use Rattle.std.specs.Prelude.{◌≡◌, None};
ghost use Rattle.sys.specs.World.{Between};
ghost use Rattle.token.specs.Refusal.{outcome};

use crate::tickets::Tickets;
use poller::{Interest, Mode, Poller};
use sys::{Clock, Poll};
use token::{Error, TokenFactory};

#[derive(Clone, Copy)]
pub struct OneFile<T> {
    pub(crate) file: u32,
    pub(crate) interest: Interest,
    pub(crate) mode: Mode,
    // none while the file is not registered
    pub(crate) tickets: Option<T>,
}

impl<T: Tickets> OneFile<T> {
    // A new one holds nothing.
    pub fn new(file: u32, interest: Interest, mode: Mode) -> OneFile<T>
        ensures { result ≡ record { file = file; interest = interest; mode = mode; tickets = None } }
    {
        OneFile {
            file,
            interest,
            mode,
            tickets: None,
        }
    }

    // What was drawn when it was last registered.
    pub fn tickets(&self) -> Option<T>
        ensures { result ≡ self.now.tickets }
    {
        self.tickets
    }

    // A file that it still holds is given up first.
    pub fn register<P: Poller, C: Clock>(
        &mut self,
        poll: &mut Poll<P, C>,
        factory: &mut TokenFactory,
    ) -> Result<(), Error>
        ensures { Between P.Poller C.Clock poll.old poll.new (λ w xs w'. Registers T.Tickets self.old w factory.old xs (outcome result) self.new w' factory.new) }
    {
        self.let_go(poll);
        let tickets = T::draw(factory)?;
        poll.register(self.file, self.interest, self.mode, tickets.token())?;
        self.tickets = Some(tickets);
        Ok(())
    }

    // Without tickets the poller is not asked.
    pub fn reregister<P: Poller, C: Clock>(
        &mut self,
        poll: &mut Poll<P, C>,
        factory: &mut TokenFactory,
    ) -> Result<(), Error>
        ensures { Between P.Poller C.Clock poll.old poll.new (λ w xs w'. Reregisters T.Tickets self.old w factory.old xs (outcome result) self.new w' factory.new) }
    {
        if self.tickets.is_none() {
            return Err(Error::NotFound);
        }
        let tickets = T::draw(factory)?;
        poll.reregister(self.file, self.interest, self.mode, tickets.token())?;
        self.tickets = Some(tickets);
        Ok(())
    }

    // Without tickets the poller is not asked. Once it accepts, the tickets are forgotten.
    pub fn unregister<P: Poller, C: Clock>(&mut self, poll: &mut Poll<P, C>) -> Result<(), Error>
        ensures { Between P.Poller C.Clock poll.old poll.new (λ w xs w'. Unregisters self.old w xs (outcome result) self.new w') }
    {
        if self.tickets.is_none() {
            return Err(Error::NotFound);
        }
        poll.unregister(self.file)?;
        self.tickets = None;
        Ok(())
    }

    // Gives its file up, if it has tickets.
    pub fn let_go<P: Poller, C: Clock>(&mut self, poll: &mut Poll<P, C>)
        ensures { Between P.Poller C.Clock poll.old poll.new (λ w xs w'. Leaves self.old w xs self.new w') }
    {
        if self.tickets.take().is_some() {
            poll.let_go(self.file);
        }
    }
}
