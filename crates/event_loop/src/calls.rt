// The user's calls but dispatch.
ghost use Rattle.std.specs.Prelude.{◌≡◌, ◌↔◌, ℕ, true, List, [], ◌∷◌, ◌++◌, IfOk};
ghost use Rattle.event_loop.specs.State.{Aside, LeavesAllBut, handle_of};
ghost use Rattle.loop_handle.specs.State.{Orderly, Performed, inserted_of};
ghost use Rattle.model.specs.Calls.{disable_of, enable_of, idling_of, insert_of, remove_of, update_of};
ghost use Rattle.model.specs.Counts.{Counted, Latest, times, version_of};
ghost use Rattle.model.specs.Order.{given_out, refused_by};
ghost use Rattle.model.specs.Others.{slot_given};
ghost use Rattle.model.specs.Refusals.{DisableRefusals, EnableRefusals, InsertRefusals, UpdateRefusals};
ghost use Rattle.rules.specs.Kinds.{Free};
ghost use Rattle.token.specs.Refusal.{outcome};
ghost use Rattle.token.specs.declared.token.Token.{Token};

use crate::state::EventLoop;
use kinds::EventSource;
use loop_handle::InsertError;
use poller::Poller;
use sys::Clock;
use token::{Error, Token};

impl<P: Poller, C: Clock, S: EventSource> EventLoop<P, C, S> {
    // Puts the source into a slot and registers it, or hands it back.
    pub fn insert(&mut self, source: S) -> Result<Token, InsertError<S>>
        ensures refusals { InsertRefusals (handle_of self.old).sources (inserted_of result) }
        ensures version { (h : List ℕ) → Counted h (handle_of self.old).sources → IfOk result (λ t. t.version ≡ version_of (times t.id (h ++ t.id ∷ []))) }
        ensures leaves { (h : List ℕ) (v : List Token) → Orderly P.Poller S.EventSource h v (handle_of self.old) → Free (S.EventSource.means source) → LeavesAllBut P.Poller S.EventSource (slot_given (handle_of self.old).sources) self.old self.new }
        ensures order { (h : List ℕ) (v : List Token) → Orderly P.Poller S.EventSource h v (handle_of self.old) → Free (S.EventSource.means source) → Orderly P.Poller S.EventSource (h ++ given_out (handle_of self.old).sources) v (handle_of self.new) }
        ensures aside { Aside self.old self.new }
        ensures is { Performed P.Poller C.Clock S.EventSource (λ l. insert_of S.EventSource l source) (handle_of self.old) (inserted_of result) (handle_of self.new) }
    {
        self.inner.handle.insert(source)
    }

    // Registers a source that was unregistered.
    pub fn enable(&mut self, token: Token) -> Result<(), Error>
        ensures refusals { EnableRefusals (handle_of self.old).sources token (outcome result) }
        ensures leaves { (h : List ℕ) (v : List Token) → Orderly P.Poller S.EventSource h v (handle_of self.old) → LeavesAllBut P.Poller S.EventSource token.id self.old self.new }
        ensures order { (h : List ℕ) (v : List Token) → Orderly P.Poller S.EventSource h v (handle_of self.old) → Orderly P.Poller S.EventSource h (v ++ refused_by (outcome result) token) (handle_of self.new) }
        ensures aside { Aside self.old self.new }
        ensures is { Performed P.Poller C.Clock S.EventSource (λ l. enable_of S.EventSource l token) (handle_of self.old) (outcome result) (handle_of self.new) }
    {
        self.inner.handle.enable(token)
    }

    // Registers a source anew; one that is being handled, after its event.
    pub fn update(&mut self, token: Token) -> Result<(), Error>
        ensures refusals { UpdateRefusals (handle_of self.old).sources token (outcome result) }
        ensures leaves { (h : List ℕ) (v : List Token) → Orderly P.Poller S.EventSource h v (handle_of self.old) → LeavesAllBut P.Poller S.EventSource token.id self.old self.new }
        ensures order { (h : List ℕ) (v : List Token) → Orderly P.Poller S.EventSource h v (handle_of self.old) → Orderly P.Poller S.EventSource h v (handle_of self.new) }
        ensures aside { Aside self.old self.new }
        ensures is { Performed P.Poller C.Clock S.EventSource (λ l. update_of S.EventSource l token) (handle_of self.old) (outcome result) (handle_of self.new) }
    {
        self.inner.handle.update(token)
    }

    // Unregisters a source; one that is being handled, after its event.
    pub fn disable(&mut self, token: Token) -> Result<(), Error>
        ensures refusals { DisableRefusals (handle_of self.old).sources token (outcome result) }
        ensures leaves { (h : List ℕ) (v : List Token) → Orderly P.Poller S.EventSource h v (handle_of self.old) → LeavesAllBut P.Poller S.EventSource token.id self.old self.new }
        ensures order { (h : List ℕ) (v : List Token) → Orderly P.Poller S.EventSource h v (handle_of self.old) → Orderly P.Poller S.EventSource h v (handle_of self.new) }
        ensures aside { Aside self.old self.new }
        ensures is { Performed P.Poller C.Clock S.EventSource (λ l. disable_of S.EventSource l token) (handle_of self.old) (outcome result) (handle_of self.new) }
    {
        self.inner.handle.disable(token)
    }

    // Empties the slot, and answers whether a source left. One that is being handled leaves after its event.
    pub fn remove(&mut self, token: Token) -> bool
        ensures fits { (h : List ℕ) (n : ℕ) → Counted h (handle_of self.old).sources → token.version ≡ version_of n → (result ≡ true) ↔ Latest h (handle_of self.old).sources token.id n }
        ensures leaves { (h : List ℕ) (v : List Token) → Orderly P.Poller S.EventSource h v (handle_of self.old) → LeavesAllBut P.Poller S.EventSource token.id self.old self.new }
        ensures order { (h : List ℕ) (v : List Token) → Orderly P.Poller S.EventSource h v (handle_of self.old) → Orderly P.Poller S.EventSource h v (handle_of self.new) }
        ensures aside { Aside self.old self.new }
        ensures is { Performed P.Poller C.Clock S.EventSource (λ l. remove_of S.EventSource l token) (handle_of self.old) result (handle_of self.new) }
    {
        self.inner.handle.remove(token)
    }

    // Lets a value wait for the idle handler, and answers its ticket.
    pub fn idle(&mut self, value: u32) -> Result<u32, Error>
        ensures order { (h : List ℕ) (v : List Token) → Orderly P.Poller S.EventSource h v (handle_of self.old) → Orderly P.Poller S.EventSource h v (handle_of self.new) }
        ensures aside { Aside self.old self.new }
        ensures is { Performed P.Poller C.Clock S.EventSource (λ l. idling_of l value) (handle_of self.old) (outcome result) (handle_of self.new) }
    {
        self.inner.handle.idle(value)
    }
}
