// What the tests do to a poller and its clock, and their tokens.
ghost use Rattle.std.specs.Prelude.{◌≡◌};
ghost use Rattle.poller.specs.Line.{LinesSet, line_of};

use poller::{LinePoller, Poller};
use std::alloc::Global;
use std::test::Fail;
use sys::{Environment, Poll, PollEvents, SetClock};
use token::Token;

// The lines that the firmware sets.
#[derive(Clone, Copy)]
pub struct Lines {
    pub lines: u64,
}

impl Environment<LinePoller, SetClock> for Lines {
    ghost arranges = { λ l p c l' p' c'. LinesSet (line_of p) l.lines (line_of p') × (c' ≡ c) };

    fn arrange(&mut self, poller: &mut LinePoller, _clock: &mut SetClock) {
        poller.set_lines(self.lines);
    }
}

// Lets the world change, and answers how many events a wait brings.
pub fn count<P: Poller, E: Environment<P, SetClock> + Drop>(
    heap: Global,
    poll: &mut Poll<P, SetClock>,
    mut world: E,
) -> Result<usize, Fail> {
    poll.arrange(&mut world);
    let mut events = PollEvents::new(heap)?;
    poll.poll(None, &mut events)?;
    Ok(events.items.len())
}

// The first token of a slot at version 0.
pub fn token(id: u32) -> Token {
    Token {
        id,
        version: 0,
        sub_id: 0,
    }
}
