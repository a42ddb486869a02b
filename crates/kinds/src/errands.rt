// The errands of one event, in memory that was reserved beforehand.
ghost use Rattle.std.specs.Prelude.{◌≡◌, ◌≤◌, [], length, IfOk};
ghost use Rattle.kinds.specs.Errands.{push_of};
ghost use Rattle.token.specs.Refusal.{outcome};

use crate::errand::Errand;
use bounded::Bounded;
use std::alloc::{AllocError, Global};
use std::marker::Model;
use token::Error;

// The most errands of one event.
const CAPACITY: usize = 8;

#[derive(Drop)]
pub struct Errands {
    items: Bounded<Errand, CAPACITY>,
}

impl Model for Errands {
    ghost use Rattle.std.specs.Prelude.{List};
    ghost use Rattle.kinds.specs.declared.errand.Errand.{Errand};

    ghost Value = { List Errand };

    ghost view = { λ e. e.items.items.items };
}

// Only `new` allocates.
impl Errands {
    pub fn new(heap: Global) -> Result<Errands, AllocError>
        ensures { IfOk result (λ e. e ≡ []) }
    {
        let items = Bounded::new(heap)?;
        Ok(Errands { items })
    }

    // Asks for one errand more; the ninth is refused, and not done.
    pub fn push(&mut self, errand: Errand) -> Result<(), Error>
        ensures { (outcome result, self.new) ≡ push_of self.old errand }
    {
        self.items.try_push(errand).map_err(|_| Error::ErrandsFull)
    }

    pub fn as_slice(&self) -> &[Errand]
        ensures is { result.now ≡ self.now }
        ensures few { length self.now ≤ 8 }
    {
        self.items.items.as_slice()
    }

    pub fn clear(&mut self)
        ensures { self.new ≡ [] }
    {
        self.items.items.clear();
    }
}
