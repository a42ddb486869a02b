// A poller's entries, and the calls that change them. Only `new` allocates.
ghost use Rattle.std.specs.Prelude.{◌≡◌, ℕ, ◌+◌, ◌<◌, min, [], ◌++◌, IfSome, IfOk, Some, vec_len};
ghost use Rattle.bounded.specs.Room.{HasRoom};
ghost use Rattle.poller.specs.Register.{Distinct};

use crate::entry::{Entry, Event, Mode, Request};
use crate::events::Events;
use bounded::Bounded;
use std::alloc::{AllocError, Global};
use token::Error;

// At most `N` entries, with distinct files. A list and no map: contracts say the order of the entries, which a
// HashMap leaves open; a BTreeMap allocates as it grows; an IndexMap would hold each file twice, as key and in its entry.
#[derive(Drop)]
pub struct Table<const N: usize> {
    pub(crate) entries: Bounded<Entry, N>,
    ghost apart: { Distinct entries.items.items },
}

impl<const N: usize> Table<N> {
    ghost use Rattle.poller.specs.Meaning.{add_of, delete_of, modify_of};
    ghost use Rattle.poller.specs.Places.{entries_of, place_of};
    ghost use Rattle.poller.specs.Register.{changed};
    ghost use Rattle.poller.specs.Reports.{event_at, reported_once};
    ghost use Rattle.token.specs.Refusal.{outcome};

    pub fn new(heap: Global) -> Result<Table<N>, AllocError>
        ensures { IfOk result (λ t. entries_of t ≡ []) }
    {
        let entries = Bounded::new(heap)?;
        Ok(Table { entries })
    }

    // Where the file's entry stands.
    pub fn find(&self, file: u32) -> Option<usize>
        ensures place { result ≡ place_of file (entries_of self.now) }
        ensures within { IfSome result (λ i. i < vec_len self.now.entries.items) }
    {
        self.entries
            .items
            .iter()
            .position(|entry| entry.file == file)
    }

    // Past its checks the call ends as `fate` says, here and below; an Err has the poller's own code.
    pub fn add(&mut self, request: Request, fate: Result<(), u32>) -> Result<(), Error>
        ensures { (outcome result, entries_of self.new) ≡ add_of N (entries_of self.old) request fate }
    {
        self.add_within(N, request, fate)
    }

    // For a poller whose limit is known only when it runs.
    #[tactic(auto, using(crate::proofs::Outcomes::adding))]
    pub fn add_within(
        &mut self,
        most: usize,
        request: Request,
        fate: Result<(), u32>,
    ) -> Result<(), Error>
        ensures { (outcome result, entries_of self.new) ≡ add_of (min most N) (entries_of self.old) request fate }
    {
        if self.find(request.file).is_some() {
            return Err(Error::Exists);
        }
        if self.entries.is_full() || self.entries.items.len() >= most {
            return Err(Error::PollerFull);
        }
        fate.map_err(Error::PollerFailed)?;
        self.entries.items.push_reserved(Entry::from(request));
        Ok(())
    }

    #[tactic(auto, using(crate::proofs::Outcomes::modifying))]
    pub fn modify(&mut self, request: Request, fate: Result<(), u32>) -> Result<(), Error>
        ensures { (outcome result, entries_of self.new) ≡ modify_of (entries_of self.old) request fate }
    {
        let Some(i) = self.find(request.file) else {
            return Err(Error::NotFound);
        };
        fate.map_err(Error::PollerFailed)?;
        let entry = &mut self.entries.items[i];
        *entry = Entry {
            stuck: entry.stuck,
            ..Entry::from(request)
        };
        Ok(())
    }

    // A delete that fails marks its entry stuck.
    #[tactic(auto, using(crate::proofs::Outcomes::deleting))]
    pub fn delete(&mut self, file: u32, fate: Result<(), u32>) -> Result<(), Error>
        ensures { (outcome result, entries_of self.new) ≡ delete_of (entries_of self.old) file fate }
    {
        let Some(i) = self.find(file) else {
            return Err(Error::NotFound);
        };
        if let Err(code) = fate {
            self.entries.items[i].stuck = true;
            return Err(Error::PollerFailed(code));
        }
        self.entries.items.remove(i);
        Ok(())
    }

    // Reports the entry as readable. A one-shot entry is then disarmed.
    #[tactic(auto, using(crate::proofs::Reporting::telling))]
    pub(crate) fn tell(&mut self, i: usize, events: &mut Events)
        requires within { i < vec_len self.old.entries.items }
        requires room { HasRoom events.old }
        ensures entries { (f : ℕ) → Some i ≡ place_of f (entries_of self.old) → entries_of self.new ≡ changed f reported_once (entries_of self.old) }
        ensures events { (f : ℕ) → Some i ≡ place_of f (entries_of self.old) → events.new.items.items ≡ events.old.items.items ++ event_at (entries_of self.old) f }
        ensures count { vec_len events.new.items ≡ vec_len events.old.items + 1 }
        ensures long { vec_len self.new.entries.items ≡ vec_len self.old.entries.items }
    {
        let entry = self.entries.items[i];
        events.items.push_reserved(Event {
            key: entry.key,
            readable: true,
            writable: false,
        });
        if entry.mode == Mode::OneShot {
            self.entries.items[i].armed = false;
        }
    }
}
