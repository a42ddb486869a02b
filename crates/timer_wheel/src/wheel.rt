// The wheel and its calls. Only `new` allocates.
ghost use Rattle.std.specs.Prelude.{◌≡◌, ◌≤◌, ◌<◌, drop, IfOk, OnOk, slice_get, vec_len};
ghost use Rattle.std.specs.Vec.{vec_ptr};
ghost use Rattle.bounded.specs.Room.{HasRoom};
ghost use Rattle.token.specs.Refusal.{outcome};
ghost use Rattle.timer_wheel.specs.Entries.{Rising};

use crate::timeout::TimeoutData;
use bounded::Bounded;
use std::alloc::{AllocError, Global};
use token::{Error, Token};

// The most entries that stand at once. A list and no heap: equal deadlines stay in order of entry.
const CAPACITY: usize = 256;

#[derive(Drop)]
pub struct TimerWheel {
    // the earliest first, equal deadlines in order of entry
    pub(crate) entries: Bounded<TimeoutData, CAPACITY>,
    // the counter of the next insertion
    pub(crate) counter: u32,
    ghost rising: { Rising entries.items.items },
    ghost small: { counter ≤ 4294967295 },
}

impl TimerWheel {
    ghost use Rattle.timer_wheel.specs.Entries.{enter, without};
    ghost use Rattle.timer_wheel.specs.Laws.{Exact, Joins};
    ghost use Rattle.timer_wheel.specs.Wheel.{cancel_of, empty, expired_of, first_deadline, insert_of, reuse_of, wheel_of};

    pub fn new(heap: Global) -> Result<TimerWheel, AllocError>
        ensures { IfOk result (λ w. wheel_of w ≡ empty) }
    {
        let entries = Bounded::new(heap)?;
        Ok(TimerWheel {
            entries,
            counter: 0,
        })
    }

    // A full wheel is told before a spent counter.
    pub fn insert(&mut self, deadline: u64, token: Token) -> Result<u32, Error>
        ensures is { (outcome result, wheel_of self.new) ≡ insert_of deadline token (wheel_of self.old) }
        ensures joins { IfOk result (λ k. Joins (record { deadline = deadline; token = token; counter = k }) (wheel_of self.old).timers (wheel_of self.new).timers) }
        ensures in_place { vec_ptr self.new.entries.items ≡ vec_ptr self.old.entries.items }
    {
        let counter = self.counter;
        if self.entries.is_full() {
            return Err(Error::TimersFull);
        }
        if counter == u32::MAX {
            return Err(Error::TimersSpent);
        }
        self.enter(TimeoutData {
            deadline,
            token,
            counter,
        });
        self.counter = counter + 1;
        Ok(counter)
    }

    // A timer that is set again keeps its counter. The parameters are calloop's.
    pub fn insert_reuse(&mut self, counter: u32, deadline: u64, token: Token) -> Result<(), Error>
        ensures is { (outcome result, wheel_of self.new) ≡ reuse_of counter deadline token (wheel_of self.old) }
        ensures joins { OnOk result (Joins (record { deadline = deadline; token = token; counter = counter }) (wheel_of self.old).timers (wheel_of self.new).timers) }
        ensures in_place { vec_ptr self.new.entries.items ≡ vec_ptr self.old.entries.items }
    {
        if self.entries.is_full() {
            return Err(Error::TimersFull);
        }
        self.enter(TimeoutData {
            counter,
            deadline,
            token,
        });
        Ok(())
    }

    // A counter may stand more than once, since it can be reused.
    pub fn cancel(&mut self, counter: u32)
        ensures { wheel_of self.new ≡ cancel_of counter (wheel_of self.old) }
    {
        match self.first() {
            Some(entry) if entry.counter == counter => self.drop_first(),
            _ => self.drop_all(counter),
        }
    }

    // The earliest entry leaves if its deadline has come.
    pub fn next_expired(&mut self, instant: u64) -> Option<(u32, Token)>
        ensures is { (result, wheel_of self.new) ≡ expired_of instant (wheel_of self.old) }
        ensures exact { Exact instant (wheel_of self.old) }
    {
        let entry = self.first().filter(|entry| entry.deadline <= instant)?;
        self.drop_first();
        Some((entry.counter, entry.token))
    }

    pub fn next_deadline(&self) -> Option<u64>
        ensures { result ≡ first_deadline (wheel_of self.now) }
    {
        self.first().map(|entry| entry.deadline)
    }

    fn first(&self) -> Option<TimeoutData>
        ensures { result ≡ slice_get self.now.entries.items.items 0 }
    {
        self.entries.items.first().copied()
    }

    // The newcomer stands behind every entry that is due no later. There is room, so this does not allocate.
    // That the counter stays is said of three private calls: a struct for the list would be made for that clause alone.
    fn enter(&mut self, entry: TimeoutData)
        requires { HasRoom self.old.entries }
        ensures items { self.new.entries.items.items ≡ enter entry self.old.entries.items.items }
        ensures joins { Joins entry self.old.entries.items.items self.new.entries.items.items }
        ensures in_place { vec_ptr self.new.entries.items ≡ vec_ptr self.old.entries.items }
        ensures counter { self.new.counter ≡ self.old.counter }
    {
        let at = self
            .entries
            .items
            .partition_point(|other| other.deadline <= entry.deadline);
        let _ = self.entries.items.insert(at, entry);
    }

    fn drop_first(&mut self)
        requires { 0 < vec_len self.old.entries.items }
        ensures items { self.new.entries.items.items ≡ drop 1 self.old.entries.items.items }
        ensures counter { self.new.counter ≡ self.old.counter }
    {
        self.entries.items.remove(0);
    }

    // Drops every entry with the counter; the others keep their order.
    fn drop_all(&mut self, counter: u32)
        ensures items { self.new.entries.items.items ≡ without counter self.old.entries.items.items }
        ensures counter { self.new.counter ≡ self.old.counter }
    {
        self.entries.items.retain(|entry| entry.counter != counter);
    }
}
