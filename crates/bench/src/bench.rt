// The sources that a script speaks of, and the loop over them.
ghost use Rattle.std.specs.Prelude.{◌≡◌, ℕ, false, List, [], ◌++◌, IfErr, IfOk, reverse};
ghost use Rattle.bench.specs.Handlers.{nth_token, repeated};
ghost use Rattle.token.specs.Refusal.{done, outcome};
ghost use Rattle.token.specs.declared.token.Token.{Token};
ghost use Rattle.std.proofs.Common.{rules};

use event_loop::{EventLoop, InsertError};
use generic::{Generic, GenericHandler};
use kinds::{Either, Errands, EventSource};
use poller::{BenchPoller, Poller, Readiness};
use post_action::PostAction;
use std::alloc::{AllocError, Global};
use sys::{Clock, Poll, SetClock, Setting};
use timer::{TimeoutAction, Timer, TimerHandler};
use token::{Error, Token};

// Answers every event of its file alike. A source needs no more of a handler than that it can be dropped.
#[derive(Drop)]
pub struct Fixed {
    pub action: PostAction,
}

impl GenericHandler for Fixed {
    ghost handles = { λ h x es r h' es'. (r ≡ done h.action) × (h' ≡ h) × (es' ≡ es) };

    ghost handling = { Prim.search rules };

    fn handle(
        &mut self,
        _readiness: Readiness,
        _errands: &mut Errands,
    ) -> Result<PostAction, Error> {
        Ok(self.action)
    }
}

// Rings again after a period, or never where it is 0, as the script says it.
#[derive(Drop)]
pub struct Repeat {
    pub period: u64,
}

impl TimerHandler for Repeat {
    ghost rings = { λ h d es r h' es'. (r ≡ repeated h.period) × (h' ≡ h) × (es' ≡ es) };

    ghost ringing = { Prim.search rules };

    fn ring(&mut self, _deadline: u64, _errands: &mut Errands) -> TimeoutAction {
        match self.period {
            0 => TimeoutAction::Drop,
            period => TimeoutAction::ToDuration(period),
        }
    }
}

pub type Source = Either<Timer<Repeat>, Generic<Fixed>>;

// The loop, and the tokens of the accepted inserts, in their order.
pub struct Bench {
    pub event_loop: EventLoop<BenchPoller, SetClock, Source>,
    inserted: Vec<Token>,
}

impl Bench {
    ghost use Rattle.bench.specs.Calls.{Dispatches, Inserts, NoRoom, Removes, Told, accepted, enable_refused};
    ghost use Rattle.event_loop.specs.End.{vacates_all};
    ghost use Rattle.event_loop.specs.State.{Idle, handle_of, polling_of};
    ghost use Rattle.loop_handle.specs.State.{Orderly, loop_over};
    ghost use Rattle.model.specs.Calls.{disable_of, enable_of, update_of};
    ghost use Rattle.model.specs.Course.{Takes};
    ghost use Rattle.model.specs.Laws.{NoneLost};
    ghost use Rattle.model.specs.Order.{given_out};
    ghost use Rattle.model.specs.State.{new_loop};
    ghost use Rattle.poller.specs.Bench.{bench_of};
    ghost use Rattle.rules.specs.Kinds.{Free};
    ghost use Rattle.sys.specs.World.{Between};

    pub fn new(heap: Global) -> Result<Bench, AllocError>
        ensures is { IfOk result (λ b. loop_over ⟦<BenchPoller as Poller>⟧ (handle_of b.event_loop) ≡ new_loop [] 256 false) }
        ensures bench { IfOk result (λ b. (bench_of (polling_of b.event_loop).poller ≡ record { entries = []; ready = []; steps = [] }) × ((polling_of b.event_loop).clock.time ≡ 0)) }
        ensures idle { IfOk result (λ b. Idle b.event_loop) }
        ensures inserts { IfOk result (λ b. accepted b ≡ []) }
        ensures order { IfOk result (λ b. Orderly ⟦<BenchPoller as Poller>⟧ ⟦<Source as EventSource>⟧ [] [] (handle_of b.event_loop)) }
    {
        let poller = BenchPoller::new(heap)?;
        let inserted = Vec::new(heap);
        let event_loop = EventLoop::new(heap, poller, SetClock { time: 0 })?;
        Ok(Bench {
            event_loop,
            inserted,
        })
    }

    pub fn end(self) -> Poll<BenchPoller, SetClock>
        ensures { Between ⟦<BenchPoller as Poller>⟧ ⟦<SetClock as Clock>⟧ (handle_of self.event_loop).registry.poll result (λ w xs w'. Takes ⟦<Source as EventSource>⟧ (vacates_all (reverse (handle_of self.event_loop).sources) w) xs w') }
    {
        let Bench {
            event_loop,
            inserted: _,
        } = self;
        event_loop.end()
    }

    // The token of the n-th accepted insert, from 0. A line that names another is of no form.
    fn token(&self, n: u64) -> Result<Token, Error>
        ensures { outcome result ≡ nth_token (accepted self.now) n }
    {
        let token = usize::try_from(n).ok().and_then(|i| self.inserted.get(i));
        token.copied().ok_or(Error::BadForm)
    }

    // Where the list of accepted inserts has no room the source, which holds nothing, ends here.
    pub fn insert(
        &mut self,
        source: Source,
    ) -> Result<Result<Token, InsertError<Source>>, AllocError>
        ensures is { IfOk result (λ r. Inserts ⟦<BenchPoller as Poller>⟧ ⟦<SetClock as Clock>⟧ ⟦<Source as EventSource>⟧ source self.old r self.new) }
        ensures full { IfErr result (λ _. NoRoom self.old self.new) }
        ensures order { (h : List ℕ) (v : List Token) → Orderly ⟦<BenchPoller as Poller>⟧ ⟦<Source as EventSource>⟧ h v (handle_of self.old.event_loop) → Free (⟦<Source as EventSource>⟧.means source) → IfOk result (λ _. Orderly ⟦<BenchPoller as Poller>⟧ ⟦<Source as EventSource>⟧ (h ++ given_out (handle_of self.old.event_loop).sources) v (handle_of self.new.event_loop)) }
    {
        // room first: an answer that hands the source back cannot be dropped
        self.inserted.reserve(1)?;
        let answer = self.event_loop.insert(source);
        if let Ok(token) = &answer {
            self.inserted.push_reserved(*token);
        }
        Ok(answer)
    }

    pub fn enable(&mut self, n: u64) -> Result<(), Error>
        ensures is { Told ⟦<BenchPoller as Poller>⟧ ⟦<SetClock as Clock>⟧ ⟦<Source as EventSource>⟧ (enable_of ⟦<Source as EventSource>⟧) n self.old (outcome result) self.new }
        ensures order { (h : List ℕ) (v : List Token) → Orderly ⟦<BenchPoller as Poller>⟧ ⟦<Source as EventSource>⟧ h v (handle_of self.old.event_loop) → Orderly ⟦<BenchPoller as Poller>⟧ ⟦<Source as EventSource>⟧ h (v ++ enable_refused (nth_token (accepted self.old) n) (outcome result)) (handle_of self.new.event_loop) }
    {
        let token = self.token(n)?;
        self.event_loop.enable(token)
    }

    pub fn update(&mut self, n: u64) -> Result<(), Error>
        ensures is { Told ⟦<BenchPoller as Poller>⟧ ⟦<SetClock as Clock>⟧ ⟦<Source as EventSource>⟧ (update_of ⟦<Source as EventSource>⟧) n self.old (outcome result) self.new }
        ensures order { (h : List ℕ) (v : List Token) → Orderly ⟦<BenchPoller as Poller>⟧ ⟦<Source as EventSource>⟧ h v (handle_of self.old.event_loop) → Orderly ⟦<BenchPoller as Poller>⟧ ⟦<Source as EventSource>⟧ h v (handle_of self.new.event_loop) }
    {
        let token = self.token(n)?;
        self.event_loop.update(token)
    }

    pub fn disable(&mut self, n: u64) -> Result<(), Error>
        ensures is { Told ⟦<BenchPoller as Poller>⟧ ⟦<SetClock as Clock>⟧ ⟦<Source as EventSource>⟧ (disable_of ⟦<Source as EventSource>⟧) n self.old (outcome result) self.new }
        ensures order { (h : List ℕ) (v : List Token) → Orderly ⟦<BenchPoller as Poller>⟧ ⟦<Source as EventSource>⟧ h v (handle_of self.old.event_loop) → Orderly ⟦<BenchPoller as Poller>⟧ ⟦<Source as EventSource>⟧ h v (handle_of self.new.event_loop) }
    {
        let token = self.token(n)?;
        self.event_loop.disable(token)
    }

    pub fn remove(&mut self, n: u64) -> Result<bool, Error>
        ensures is { Removes ⟦<BenchPoller as Poller>⟧ ⟦<SetClock as Clock>⟧ ⟦<Source as EventSource>⟧ n self.old (outcome result) self.new }
        ensures order { (h : List ℕ) (v : List Token) → Orderly ⟦<BenchPoller as Poller>⟧ ⟦<Source as EventSource>⟧ h v (handle_of self.old.event_loop) → Orderly ⟦<BenchPoller as Poller>⟧ ⟦<Source as EventSource>⟧ h v (handle_of self.new.event_loop) }
    {
        let token = self.token(n)?;
        Ok(self.event_loop.remove(token))
    }

    // Sets the clock and the ready files, and dispatches without a timeout.
    pub fn dispatch(&mut self, clock: u64, files: Vec<u32>) -> Result<(), Error>
        ensures is { Dispatches ⟦<BenchPoller as Poller>⟧ ⟦<SetClock as Clock>⟧ ⟦<Source as EventSource>⟧ clock files.items self.old (outcome result) self.new }
        ensures order { (h : List ℕ) (v : List Token) → Orderly ⟦<BenchPoller as Poller>⟧ ⟦<Source as EventSource>⟧ h v (handle_of self.old.event_loop) → Orderly ⟦<BenchPoller as Poller>⟧ ⟦<Source as EventSource>⟧ h v (handle_of self.new.event_loop) }
        ensures lost { outcome result ≡ done tt → NoneLost self.new.event_loop.sheet.items.items }
    {
        self.event_loop.arrange(&mut Setting {
            time: clock,
            ready: Some(files),
            plan: None,
        });
        self.event_loop.dispatch(None)
    }
}
