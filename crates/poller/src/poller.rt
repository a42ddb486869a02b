// A poller: entries by file, and what each call does to them.
ghost use Rattle.std.specs.Prelude.{◌≡◌, ℕ, Bool, List, Option};
ghost use Rattle.poller.specs.Meaning.{Answer, By, Waited, add_of, delete_of, modify_of};
ghost use Rattle.poller.specs.declared.entry.Request.{Request};
ghost use Rattle.poller.specs.Register.{Sound};
ghost use Rattle.poller.specs.declared.entry.Entry.{Entry};
ghost use Rattle.poller.specs.declared.entry.Event.{Event};
ghost use Rattle.token.specs.Refusal.{outcome};

use crate::entry::Request;
use crate::events::Events;
use token::Error;

pub trait Poller {
    // Whether it knows level mode.
    const LEVEL: bool;

    ghost LEVEL: { Bool };

    ghost entries: { Self → List Entry };

    // How many entries it has room for.
    ghost most: { Self → ℕ };

    // What each call may come to. Only the call itself gives it, so that nobody can claim one that was not made.
    ghost adds: { Self → Request → Answer → Self → Type 0 };

    ghost modifies: { Self → Request → Answer → Self → Type 0 };

    ghost deletes: { Self → ℕ → Answer → Self → Type 0 };

    ghost waits: { Self → Option ℕ → Answer → List Event → Self → Type 0 };

    fn add(&mut self, request: Request) -> Result<(), Error>
        ensures { adds self.old request (outcome result) self.new };

    fn modify(&mut self, request: Request) -> Result<(), Error>
        ensures { modifies self.old request (outcome result) self.new };

    fn delete(&mut self, file: u32) -> Result<(), Error>
        ensures { deletes self.old file (outcome result) self.new };

    // Fills `events`, or answers Interrupted or PollerFailed.
    fn wait(&mut self, timeout: Option<u64>, events: &mut Events) -> Result<(), Error>
        ensures { waits self.old timeout (outcome result) events.new.items.items self.new };

    ghost sound: { (p : Self) → Sound (most p) (entries p) };

    ghost adding: { (p : Self) (q : Request) (r : Answer) (p' : Self) → adds p q r p' → By (add_of (most p) (entries p) q) r (entries p') × (most p' ≡ most p) };

    ghost modifying: { (p : Self) (q : Request) (r : Answer) (p' : Self) → modifies p q r p' → By (modify_of (entries p) q) r (entries p') × (most p' ≡ most p) };

    ghost deleting: { (p : Self) (f : ℕ) (r : Answer) (p' : Self) → deletes p f r p' → By (delete_of (entries p) f) r (entries p') × (most p' ≡ most p) };

    ghost waiting: { (p : Self) (t : Option ℕ) (r : Answer) (vs : List Event) (p' : Self) → waits p t r vs p' → Waited (entries p) r vs (entries p') × (most p' ≡ most p) };
}
