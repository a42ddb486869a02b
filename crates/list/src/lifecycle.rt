// The sources that want hooks, by token.
ghost use Rattle.std.specs.Prelude.{◌≡◌, ◌≤◌, [], length, IfOk, nat_le};
ghost use Rattle.token.specs.Refusal.{outcome};
ghost use Rattle.list.specs.Entries.{enter_of, left};

use bounded::Bounded;
use std::alloc::{AllocError, Global};
use std::marker::Model;
use token::{Error, Token};

#[derive(Drop)]
pub struct Lifecycle {
    entries: Bounded<Token, 128>,
}

// Clauses see the entries alone.
impl Model for Lifecycle {
    ghost use Rattle.std.specs.Prelude.{List};
    ghost use Rattle.token.specs.declared.token.Token.{Token};

    ghost Value = { List Token };

    ghost view = { λ l. l.entries.items.items };
}

impl Lifecycle {
    pub fn new(heap: Global) -> Result<Lifecycle, AllocError>
        ensures { IfOk result (λ l. l ≡ []) }
    {
        let entries = Bounded::new(heap)?;
        Ok(Lifecycle { entries })
    }

    pub fn as_slice(&self) -> &[Token]
        ensures is { result.now ≡ self.now }
        ensures few { length self.now ≤ 128 }
    {
        self.entries.items.as_slice()
    }

    pub fn is_full(&self) -> bool
        ensures { result ≡ nat_le 128 (length self.now) }
    {
        self.entries.is_full()
    }

    pub fn enter(&mut self, token: Token) -> Result<(), Error>
        ensures { (outcome result, self.new) ≡ enter_of token self.old }
    {
        let entered = self.entries.try_push(token);
        entered.map_err(|_| Error::LifecycleFull)
    }

    // Drops the entries of the token's source.
    pub fn drop_all(&mut self, token: Token)
        ensures { self.new ≡ left token self.old }
    {
        self.entries
            .items
            .retain(|entry| !entry.same_source_as(token));
    }
}
