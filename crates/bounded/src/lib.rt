// A list in memory that was reserved when it was made.
#![tactic(auto)]

ghost use Rattle.std.specs.Prelude.{◌≡◌, ◌≤◌, [], length, nat_le, IfOk, vec_len, vec_capacity};
ghost use Rattle.bounded.specs.Push.{push_of};

use std::alloc::{AllocError, Global};

#[cfg(test)]
mod tests;

// At most `N` items. Only `new` allocates. No model: its users push in place, and read `room` and `few`.
// Not `arrayvec::ArrayVec`: its `new` and its removals ask for a value for the empty places, its `push` and its
// removals for items that can be dropped, which the loop does not ask of a source, and its places lie in the value
// itself, so that 1,024 slots would move with it.
#[derive(Drop)]
pub struct Bounded<T, const N: usize> {
    pub items: Vec<T>,
    ghost room: { N ≤ vec_capacity items },
    ghost few: { vec_len items ≤ N },
}

impl<T, const N: usize> Bounded<T, N> {
    pub fn new(heap: Global) -> Result<Bounded<T, N>, AllocError>
        ensures { IfOk result (λ l. l.items.items ≡ []) }
    {
        let items = Vec::with_capacity(heap, N)?;
        Ok(Bounded { items })
    }

    pub fn is_full(&self) -> bool
        ensures { result ≡ nat_le N (length self.now.items.items) }
    {
        self.items.len() >= N
    }

    // A full list hands the item back.
    pub fn try_push(&mut self, item: T) -> Result<(), T>
        ensures { (result, self.new.items.items) ≡ push_of N item self.old.items.items }
    {
        if self.is_full() {
            return Err(item);
        }
        self.items.push_reserved(item);
        Ok(())
    }
}
