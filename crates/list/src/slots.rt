// The slots, and what stands in each. Only `new` allocates.
ghost use Rattle.std.specs.Prelude.{◌≡◌, ◌<◌, ◌≤◌, not, [], ◌++◌, length, IfOk, IfSome, MatchOption};
ghost use Rattle.std.specs.Fn.{FnOnceReturnsAtMut};
ghost use Rattle.std.specs.List.{position};
ghost use Rattle.std.specs.Option.{option_to_list};

use bounded::Bounded;
use std::alloc::{AllocError, Global};
use std::marker::Model;
use std::mem;
use token::Token;

// What stands in a slot. A source whose event is being handled is out of its slot, which stays occupied:
// a third state, so this is no Option.
pub enum Place<S> {
    Empty,
    Occupied(S),
    Handled,
}

pub struct Slot<S> {
    pub version: u16,
    // no accepted unregister since its last accepted register or reregister
    pub enabled: bool,
    pub place: Place<S>,
}

// A token names a slot by its place, as in calloop, so the slots are a list.
pub struct SourceList<S> {
    pub(crate) slots: Bounded<Slot<S>, 1024>,
}

// Clauses see the slots alone.
impl<S> Model for SourceList<S> {
    ghost use Rattle.std.specs.Prelude.{List};
    ghost use Rattle.list.specs.declared.slots.Slot.{Slot};

    ghost Value = { List (Slot S) };

    ghost view = { λ l. l.slots.items.items };
}

impl<S> Place<S> {
    ghost use Rattle.list.specs.Slots.{occupied};

    // Whether the slot is in use by a source.
    fn is_occupied(&self) -> bool
        ensures { result ≡ occupied self.now }
    {
        !matches!(self, Place::Empty)
    }
}

impl<S> SourceList<S> {
    ghost use Rattle.list.specs.declared.slots.Place.TheVariants.{Empty, Occupied, Handled};
    ghost use Rattle.list.specs.Slots.{NoSourceAt, SourceAt, fitting, handled, marked, occupied, placed, slot_at, standing, vacant_of};

    pub fn new(heap: Global) -> Result<SourceList<S>, AllocError>
        ensures { IfOk result (λ l. l ≡ []) }
    {
        let slots = Bounded::new(heap)?;
        Ok(SourceList { slots })
    }

    // The lowest empty slot in use.
    #[tactic(auto, using(crate::proofs::Walks::empty_at))]
    fn first_empty(&self) -> Option<usize>
        ensures is { result ≡ position (λ x. not (occupied x.place)) self.now }
        ensures empty { IfSome result (λ i. (slot_at self.now i).place ≡ Empty) }
    {
        self.slots
            .items
            .iter()
            .position(|slot| !slot.place.is_occupied())
    }

    // Gives out the lowest empty slot in use at its next version, else the next unused one.
    pub fn vacant_entry(&mut self) -> Option<Token>
        ensures is { (result, self.new) ≡ vacant_of self.old }
        ensures free { IfSome result (λ t. NoSourceAt self.new t.id) }
    {
        let (i, version) = match self.first_empty() {
            Some(i) => {
                let slot = &mut self.slots.items[i];
                // as `Token::increment_version` does; a slot keeps its version alone, since its place is its id
                slot.version = slot.version.wrapping_add(1);
                slot.enabled = false;
                (i, slot.version)
            }
            None if self.slots.is_full() => return None,
            None => {
                let unused = self.slots.items.len();
                self.slots.items.push_reserved(Slot {
                    version: 0,
                    enabled: false,
                    place: Place::Empty,
                });
                (unused, 0)
            }
        };
        Some(Token {
            id: i as u32,
            version,
            sub_id: 0,
        })
    }

    // The slot that the token fits.
    pub fn fits(&self, token: Token) -> Option<usize>
        ensures is { result ≡ fitting self.now token }
        ensures few { length self.now ≤ 1024 }
    {
        let i = token.id as usize;
        let slot = self.slots.items.get(i)?;
        (slot.place.is_occupied() && slot.version == token.version).then_some(i)
    }

    // Whether the slot's source is being handled.
    pub fn is_handled(&self, i: usize) -> bool
        ensures { result ≡ handled (slot_at self.now i).place }
    {
        let slot = self.slots.items.get(i);
        slot.is_some_and(|slot| matches!(slot.place, Place::Handled))
    }

    // Whether the slot's source is enabled; false for a slot not in use.
    pub fn is_enabled(&self, i: usize) -> bool
        ensures { result ≡ (slot_at self.now i).enabled }
    {
        self.slots.items.get(i).is_some_and(|slot| slot.enabled)
    }

    pub fn set_enabled(&mut self, i: usize, enabled: bool)
        requires { i < length self.old }
        ensures { self.new ≡ marked self.old i enabled }
    {
        self.slots.items[i].enabled = enabled;
    }

    // Puts this into the slot, and answers what was there.
    fn exchange(&mut self, i: usize, place: Place<S>) -> Place<S>
        requires { i < length self.old }
        ensures was { result ≡ (slot_at self.old i).place }
        ensures after { self.new ≡ placed self.old i place }
    {
        mem::replace(&mut self.slots.items[i].place, place)
    }

    // Takes the source out of its slot, which is then marked as handled.
    pub fn take_out(&mut self, i: usize) -> S
        requires { SourceAt self.old i }
        ensures was { (slot_at self.old i).place ≡ Occupied result }
        ensures after { self.new ≡ placed self.old i Handled }
    {
        match self.exchange(i, Place::Handled) {
            Place::Occupied(source) => source,
            Place::Empty | Place::Handled => unreachable(),
        }
    }

    // Lets a call change the source where it stands.
    pub fn with_source<R, F: FnOnce(&mut S) -> R>(&mut self, i: usize, ask: F) -> R
        requires there { SourceAt self.old i }
        requires callable { F.IsAlwaysCallable ask }
        ensures { (s : S) × (t : S) × ((slot_at self.old i).place ≡ Occupied s) × (self.new ≡ placed self.old i (Occupied t)) × FnOnceReturnsAtMut F.FnOnce ask s result t }
    {
        match &mut self.slots.items[i].place {
            Place::Occupied(source) => ask(source),
            Place::Empty | Place::Handled => unreachable(),
        }
    }

    // Puts this into a slot that has no source in it.
    fn put(&mut self, i: usize, place: Place<S>)
        requires { NoSourceAt self.old i }
        ensures { self.new ≡ placed self.old i place }
    {
        match self.exchange(i, place) {
            Place::Occupied(_old) => unreachable(),
            Place::Empty | Place::Handled => {}
        }
    }

    // Puts a source into a slot that has none.
    pub fn fill(&mut self, i: usize, source: S)
        requires { NoSourceAt self.old i }
        ensures { self.new ≡ placed self.old i (Occupied source) }
    {
        self.put(i, Place::Occupied(source));
    }

    // Puts a source into a slot that has none, and says whether it is enabled.
    pub fn put_back(&mut self, i: usize, source: S, enabled: bool)
        requires { NoSourceAt self.old i }
        ensures { self.new ≡ standing self.old i source enabled }
    {
        self.fill(i, source);
        self.set_enabled(i, enabled);
    }

    // Empties a slot that has no source in it.
    pub fn empty(&mut self, i: usize)
        requires { NoSourceAt self.old i }
        ensures { self.new ≡ placed self.old i Empty }
    {
        self.put(i, Place::Empty);
    }

    // Takes the last slot in use apart; none where no slot is in use.
    pub fn take_last(&mut self) -> Option<Slot<S>>
        ensures items { self.old ≡ self.new ++ option_to_list result }
        ensures cases { MatchOption result (self.new ≡ []) (λ _. length self.new < length self.old) }
    {
        self.slots.items.pop()
    }

    // Ends a list with no slot in use.
    pub fn end(self)
        requires { self ≡ [] }
    {
        let SourceList { slots } = self;
        slots.items.destroy_empty();
    }
}
