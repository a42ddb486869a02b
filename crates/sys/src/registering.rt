// Registration: what a source asks of the poller and the timers.
ghost use Rattle.std.specs.Prelude.{◌≡◌, [], ◌∷◌, IfOk, Some, None};
ghost use Rattle.token.specs.Key.{key_of};
ghost use Rattle.token.specs.Refusal.{Done, done, outcome};
ghost use Rattle.timer_wheel.specs.Wheel.{cancel_of, empty, insert_of, reuse_of};
ghost use Rattle.levels.specs.Table.{dropped, entered};
ghost use Rattle.levels.specs.declared.table.Line.{Line};
ghost use Rattle.std.specs.Option.{option_map};
ghost use Rattle.sys.specs.Laws.{TouchesFile};
ghost use Rattle.sys.specs.Polling.{AsksBy, LetsGo, Registers, Unregisters, line_for, mode_below_of, new_table, request, state_of, with_clock, with_lines, with_poller, with_wheel};
ghost use Rattle.sys.specs.World.{Between, CameTo, let_go_of, read, register_of, reregister_of, unregister_of, world_of};

use crate::clock::{Clock, Environment};
use crate::poll::Poll;
use levels::{Levels, Line};
use poller::{Events, Interest, Mode, Poller, Request};
use std::alloc::{AllocError, Global};
use timer_wheel::TimerWheel;
use token::{Error, Token};

// What the level table notes of a registration.
fn to_line(file: u32, interest: Interest, token: Token) -> Line
    ensures { result ≡ line_for file interest token }
{
    Line {
        key: u64::from(token),
        file,
        interest,
    }
}

// What the poller is asked for the line's file. A function, since both types are of other crates.
pub(crate) fn to_request(line: Line, mode: Mode) -> Request
    ensures { result ≡ request line mode }
{
    Request {
        file: line.file,
        key: line.key,
        interest: line.interest,
        mode,
    }
}

impl<P: Poller, C: Clock> Poll<P, C> {
    // Reserves all memory that the polling system will ever use.
    pub fn new(heap: Global, poller: P, clock: C) -> Result<Poll<P, C>, AllocError>
    where
        P: Drop,
        C: Drop,
        ensures { IfOk result (λ s. state_of s ≡ record { poller = poller; clock = clock; wheel = empty; lines = new_table P.Poller.LEVEL; reported = [] }) }
    {
        let level_triggered = if P::LEVEL {
            None
        } else {
            Some(Levels::new(heap)?)
        };
        let timers = TimerWheel::new(heap)?;
        let events = Events::new(heap)?;
        Ok(Poll {
            poller,
            clock,
            timers,
            events,
            level_triggered,
        })
    }

    pub fn now(&mut self) -> u64
        ensures is { C.Clock.reads self.old.clock result self.new.clock × (state_of self.new ≡ with_clock (state_of self.old) self.new.clock) }
        ensures plain { Between P.Poller C.Clock self.old self.new (λ w xs w'. (xs ≡ read result ∷ []) × (w' ≡ w)) }
    {
        self.clock.now()
    }

    // Lets the world change what the poller and the clock will say.
    pub fn arrange<E: Environment<P, C>>(&mut self, environment: &mut E)
        ensures is { E.Environment.arranges environment.old (state_of self.old).poller (state_of self.old).clock environment.new (state_of self.new).poller (state_of self.new).clock }
        ensures rest { state_of self.new ≡ with_clock (with_poller (state_of self.old) (state_of self.new).poller) (state_of self.new).clock }
        ensures same { world_of P.Poller self.new ≡ world_of P.Poller self.old }
    {
        environment.arrange(&mut self.poller, &mut self.clock);
    }

    // The parameters are calloop's, here and in `reregister`.
    pub fn register(
        &mut self,
        file: u32,
        interest: Interest,
        mode: Mode,
        token: Token,
    ) -> Result<(), Error>
        ensures is { Registers P.Poller.adds (line_for file interest token) mode (state_of self.old) (outcome result) (state_of self.new) }
        ensures plain { CameTo P.Poller C.Clock (register_of (line_for file interest token) mode) self.old (outcome result) self.new }
        ensures touches { TouchesFile P.Poller file (Some (key_of token)) self.old self.new }
    {
        let line = to_line(file, interest, token);
        self.send(line, mode, P::add)
    }

    pub fn reregister(
        &mut self,
        file: u32,
        interest: Interest,
        mode: Mode,
        token: Token,
    ) -> Result<(), Error>
        ensures is { Registers P.Poller.modifies (line_for file interest token) mode (state_of self.old) (outcome result) (state_of self.new) }
        ensures plain { CameTo P.Poller C.Clock (reregister_of (line_for file interest token) mode) self.old (outcome result) self.new }
        ensures touches { TouchesFile P.Poller file (Some (key_of token)) self.old self.new }
    {
        let line = to_line(file, interest, token);
        self.send(line, mode, P::modify)
    }

    pub fn unregister(&mut self, file: u32) -> Result<(), Error>
        ensures is { Unregisters P.Poller file (state_of self.old) (outcome result) (state_of self.new) }
        ensures plain { CameTo P.Poller C.Clock (unregister_of file) self.old (outcome result) self.new }
        ensures touches { TouchesFile P.Poller file None self.old self.new }
    {
        self.delete(file)
    }

    // Gives the file up: one more delete, whatever it answers.
    pub fn let_go(&mut self, file: u32)
        ensures is { LetsGo P.Poller file (state_of self.old) (state_of self.new) }
        ensures plain { CameTo P.Poller C.Clock (let_go_of file) self.old (done tt) self.new }
        ensures touches { TouchesFile P.Poller file None self.old self.new }
    {
        let _ = self.poller.delete(file);
        self.forget(file);
    }

    // Enters a timer, and answers its counter.
    pub fn insert_timer(&mut self, deadline: u64, token: Token) -> Result<u32, Error>
        ensures answer { (outcome result, (state_of self.new).wheel) ≡ insert_of deadline token (state_of self.old).wheel }
        ensures same { state_of self.new ≡ with_wheel (state_of self.old) (state_of self.new).wheel }
    {
        self.timers.insert(deadline, token)
    }

    // Enters a timer under a counter that it has already.
    pub fn reuse_timer(&mut self, counter: u32, deadline: u64, token: Token) -> Result<(), Error>
        ensures answer { (outcome result, (state_of self.new).wheel) ≡ reuse_of counter deadline token (state_of self.old).wheel }
        ensures same { state_of self.new ≡ with_wheel (state_of self.old) (state_of self.new).wheel }
    {
        self.timers.insert_reuse(counter, deadline, token)
    }

    pub fn cancel_timer(&mut self, counter: u32)
        ensures { state_of self.new ≡ with_wheel (state_of self.old) (cancel_of counter (state_of self.old).wheel) }
    {
        self.timers.cancel(counter);
    }

    // Asks the poller for the line's file in the mode below, and notes the line.
    fn send<F>(&mut self, line: Line, mode: Mode, ask: F) -> Result<(), Error>
    where
        F: FnOnce(&mut P, Request) -> Result<(), Error>,
        requires { F.IsAlwaysCallable ask }
        ensures { Registers (AsksBy F.FnOnce ask) line mode (state_of self.old) (outcome result) (state_of self.new) }
    {
        let below = self.mode_below(line.key, mode)?;
        ask(&mut self.poller, to_request(line, below))?;
        self.note(line, mode);
        Ok(())
    }

    // Deletes the file from the poller, and forgets its lines.
    fn delete(&mut self, file: u32) -> Result<(), Error>
        ensures { Unregisters P.Poller file (state_of self.old) (outcome result) (state_of self.new) }
    {
        self.poller.delete(file)?;
        self.forget(file);
        Ok(())
    }

    // The mode in which a registration goes down to the poller.
    fn mode_below(&self, key: u64, mode: Mode) -> Result<Mode, Error>
        ensures { outcome result ≡ mode_below_of self.now.level_triggered key mode }
    {
        let Some(levels) = &self.level_triggered else {
            return Ok(mode);
        };
        match mode {
            Mode::Edge => Err(Error::NoEdge),
            Mode::Level if levels.is_full_for(key) => Err(Error::LevelFull),
            Mode::Level | Mode::OneShot => Ok(Mode::OneShot),
        }
    }

    // The table after an accepted registration.
    fn note(&mut self, line: Line, mode: Mode)
        requires { Done (mode_below_of self.old.level_triggered line.key mode) }
        ensures { state_of self.new ≡ with_lines (state_of self.old) (option_map (entered line mode) (state_of self.old).lines) }
    {
        if let Some(levels) = &mut self.level_triggered {
            levels.enter(line, mode);
        }
    }

    fn forget(&mut self, file: u32)
        ensures { state_of self.new ≡ with_lines (state_of self.old) (option_map (dropped file None) (state_of self.old).lines) }
    {
        if let Some(levels) = &mut self.level_triggered {
            levels.drop_lines(file, None);
        }
    }
}
