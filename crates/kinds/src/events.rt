// What a source is shown after a wait.
ghost use Rattle.std.specs.Prelude.{◌≡◌};
ghost use Rattle.std.specs.Iterator.{YieldsFirst, item_count};
ghost use Rattle.kinds.specs.Events.{of_source};
ghost use Rattle.kinds.specs.Shown.{left};

use sys::PollEvent;
use token::Token;

// The events of one source. Its fields are private, so that whoever is handed it sees no other source's.
#[derive(Drop)]
pub struct EventIterator<'a> {
    registration: Token,
    events: &'a [PollEvent],
}

impl<'a> EventIterator<'a> {
    // Of the events of a wait, those of the registration's source, in their order.
    pub fn new(registration: Token, events: &'a [PollEvent]) -> EventIterator<'a>
        ensures { left result ≡ of_source registration events.now }
    {
        EventIterator {
            registration,
            events,
        }
    }
}

impl Iterator for EventIterator<'_> {
    type Item = PollEvent;

    ghost next_gives = { YieldsFirst left };

    ghost remaining = { item_count left };

    fn next(&mut self) -> Option<PollEvent> {
        while let Some((event, rest)) = self.events.split_first() {
            self.events = rest;
            if event.token.same_source_as(self.registration) {
                return Some(*event);
            }
        }
        None
    }
}
