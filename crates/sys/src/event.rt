// Events as the loop hands them to their sources.
ghost use Rattle.std.specs.Prelude.{◌≡◌, Some};
ghost use Rattle.sys.specs.Event.{letter_of, polled};

use bounded::Bounded;
use poller::{Event, Readiness};
use std::fmt;
use token::Token;

// Where an event came from: a hook, the poller or the timers.
#[derive(Clone, Copy, PartialEq, Eq, Debug)]
pub enum Class {
    Synthetic,
    Polled,
    Timer,
}

impl Class {
    // The letter by which the sheets name it.
    pub fn letter(self) -> &'static str
        ensures { result.now ≡ letter_of self }
    {
        match self {
            Class::Synthetic => "S",
            Class::Polled => "P",
            Class::Timer => "T",
        }
    }
}

impl fmt::Display for Class {
    ghost output = { λ class. Some (letter_of class) };

    fn fmt<W: fmt::Write>(&self, f: &mut fmt::Formatter<W>) -> fmt::Result {
        f.write_str(self.letter())
    }
}

#[derive(Clone, Copy)]
pub struct PollEvent {
    pub class: Class,
    pub readiness: Readiness,
    pub token: Token,
}

// What the poller reported, as an event of the loop.
impl From<Event> for PollEvent {
    ghost from_gives = { λ reported event. event ≡ polled reported };

    fn from(event: Event) -> PollEvent {
        PollEvent {
            class: Class::Polled,
            readiness: Readiness::from(event),
            token: Token::from(event.key),
        }
    }
}

// The events of one wait: at most one for each of the poller's entries and each timer.
pub type PollEvents = Bounded<PollEvent, 512>;
