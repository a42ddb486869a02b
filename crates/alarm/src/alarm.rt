// A deadline of a source, and its calls.
ghost use Rattle.alarm.specs.Calls.{Due, cancel_by, register_by, reregister_by, rung_by, set_at};
ghost use Rattle.rules.specs.Calls.{came, went};
ghost use Rattle.std.specs.Prelude.{◌≡◌, ℕ, [], Some, None};
ghost use Rattle.sys.specs.World.{Between, Exchanged, world_of};
ghost use Rattle.token.specs.Refusal.{done, outcome};

use poller::Poller;
use post_action::PostAction;
use sys::{Clock, Poll};
use token::{Error, Token, TokenFactory};

// What becomes of an alarm that has rung.
#[derive(Clone, Copy, PartialEq, Eq, Debug)]
pub enum TimeoutAction {
    Drop,
    ToInstant(u64),
    ToDuration(u64),
}

// How an alarm stands in the wheel.
#[derive(Clone, Copy)]
pub struct Registration {
    pub(crate) token: Token,
    pub(crate) counter: u32,
}

// A deadline of a source, and how it stands in the wheel.
#[derive(Clone, Copy)]
pub struct Alarm {
    // none while it is not registered
    pub(crate) registration: Option<Registration>,
    // none once it lies past the last time that there is
    pub(crate) deadline: Option<u64>,
}

impl Alarm {
    // A new one is not registered.
    pub fn from_deadline(deadline: u64) -> Alarm
        ensures { result ≡ record { registration = None; deadline = Some deadline } }
    {
        Alarm {
            registration: None,
            deadline: Some(deadline),
        }
    }

    // Enters its deadline, if it has one, under a new counter. One that it still has is forgotten, and stays in the wheel.
    pub fn register<P: Poller, C: Clock>(
        &mut self,
        poll: &mut Poll<P, C>,
        factory: &mut TokenFactory,
    ) -> Result<(), Error>
        ensures { Between P.Poller C.Clock poll.old poll.new (λ w xs w'. came xs (outcome result) self.new w' factory.new ≡ register_by self.old self.old.deadline w factory.old) }
    {
        self.registration = None;
        let Some(deadline) = self.deadline else {
            return Ok(());
        };
        let token = factory.token()?;
        let counter = poll.insert_timer(deadline, token)?;
        self.registration = Some(Registration { token, counter });
        Ok(())
    }

    // Cancels its counter, if it has one, and enters its deadline under a new one.
    pub fn reregister<P: Poller, C: Clock>(
        &mut self,
        poll: &mut Poll<P, C>,
        factory: &mut TokenFactory,
    ) -> Result<(), Error>
        ensures { Between P.Poller C.Clock poll.old poll.new (λ w xs w'. came xs (outcome result) self.new w' factory.new ≡ reregister_by self.old w factory.old) }
    {
        self.cancel(poll);
        self.register(poll, factory)
    }

    // Cancels its counter, if it has one.
    pub fn cancel<P: Poller, C: Clock>(&mut self, poll: &mut Poll<P, C>)
        ensures { Between P.Poller C.Clock poll.old poll.new (λ w xs w'. went xs (done tt) self.new w' ≡ cancel_by self.old w) }
    {
        if let Some(registration) = self.registration.take() {
            poll.cancel_timer(registration.counter);
        }
    }

    // Its registration and deadline, where an event under the token is its own.
    pub fn due(&self, token: Token) -> Option<(Registration, u64)>
        ensures { Due self.now token result }
    {
        self.registration
            .filter(|registration| registration.token == token)
            .zip(self.deadline)
    }

    // Does what was answered when it rang.
    pub fn follow<P: Poller, C: Clock>(
        &mut self,
        poll: &mut Poll<P, C>,
        registration: Registration,
        action: TimeoutAction,
    ) -> Result<PostAction, Error>
        ensures { Between P.Poller C.Clock poll.old poll.new (λ w xs w'. (now : ℕ) × (went xs (outcome result) self.new w' ≡ rung_by self.old registration action now w)) }
    {
        match action {
            TimeoutAction::Drop => Ok(PostAction::Remove),
            TimeoutAction::ToInstant(instant) => self.set(poll, registration, instant),
            TimeoutAction::ToDuration(duration) => match poll.now().checked_add(duration) {
                Some(next) => self.set(poll, registration, next),
                None => {
                    self.deadline = None;
                    Ok(PostAction::Remove)
                }
            },
        }
    }

    // Enters the next deadline under the counter that it has.
    fn set<P: Poller, C: Clock>(
        &mut self,
        poll: &mut Poll<P, C>,
        registration: Registration,
        next: u64,
    ) -> Result<PostAction, Error>
        ensures is { went [] (outcome result) self.new (world_of P.Poller poll.new) ≡ set_at self.old registration next (world_of P.Poller poll.old) [] }
        ensures exchanged { Exchanged P.Poller C.Clock [] poll.old poll.new }
    {
        poll.reuse_timer(registration.counter, next, registration.token)?;
        self.deadline = Some(next);
        Ok(PostAction::Continue)
    }
}
