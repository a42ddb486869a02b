// The idles that wait. Only `new` allocates.
ghost use Rattle.std.specs.Prelude.{◌≡◌, ◌≤◌, length, IfOk};
ghost use Rattle.token.specs.Refusal.{outcome};
ghost use Rattle.list.specs.Idles.{idle_of, none_waiting};

use bounded::Bounded;
use std::alloc::{AllocError, Global};
use std::marker::Model;
use token::Error;

#[cfg(test)]
mod tests;

// A waiting idle.
#[derive(Clone, Copy, PartialEq, Eq, Debug)]
pub struct Idle {
    pub ticket: u32,
    pub value: u32,
}

#[derive(Drop)]
pub struct Idles {
    waiting: Bounded<Idle, 64>,
    next_ticket: u32,
}

// Clauses see the idles and the next ticket alone.
impl Model for Idles {
    ghost use Rattle.list.specs.Idles.{Waiting};

    ghost Value = { Waiting };

    ghost view = { λ l. record { idles = l.waiting.items.items; next_ticket = l.next_ticket } };
}

impl Idles {
    pub fn new(heap: Global) -> Result<Idles, AllocError>
        ensures { IfOk result (λ l. l ≡ none_waiting) }
    {
        let waiting = Bounded::new(heap)?;
        Ok(Idles {
            waiting,
            next_ticket: 0,
        })
    }

    pub fn as_slice(&self) -> &[Idle]
        ensures is { result.now ≡ self.now.idles }
        ensures few { length self.now.idles ≤ 64 }
    {
        self.waiting.items.as_slice()
    }

    // Lets a value wait, and answers its ticket.
    pub fn enter(&mut self, value: u32) -> Result<u32, Error>
        ensures { (outcome result, self.new) ≡ idle_of value self.old }
    {
        let ticket = self.next_ticket;
        if self.waiting.is_full() || ticket == u32::MAX {
            return Err(Error::IdleFull);
        }
        self.waiting.items.push_reserved(Idle { ticket, value });
        self.next_ticket = ticket + 1;
        Ok(ticket)
    }
}
