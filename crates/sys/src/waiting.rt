// The wait: the poller's events, re-armed where level mode is emulated, and the timers that are due.
ghost use Rattle.std.specs.Prelude.{◌≡◌, ℕ, ◌-◌, ◌≤◌, [], ◌++◌, map, vec_len};
ghost use Rattle.token.specs.Refusal.{done, outcome};
ghost use Rattle.timer_wheel.specs.Laws.{due_by, rest};
ghost use Rattle.timer_wheel.specs.Wheel.{first_deadline};
ghost use Rattle.sys.specs.Event.{polled, rung};
ghost use Rattle.sys.specs.Laws.{Rearmed, Wakeful};
ghost use Rattle.sys.specs.Polling.{Polls, Rearms, RearmsIn, state_of, with_clock, with_poller, with_wheel};
ghost use Rattle.sys.specs.Timeout.{TimedBy};
ghost use Rattle.sys.specs.Wait.{Waits};
ghost use Rattle.sys.specs.World.{Between};

use crate::clock::Clock;
use crate::event::{Class, PollEvent, PollEvents};
use crate::poll::Poll;
use crate::registering::to_request;
use levels::Levels;
use poller::{Events, Mode, Poller, Readiness};
use token::Error;

// A modify in OneShot mode for each event whose key has a line, up to the first that fails.
fn arm_again<P: Poller>(poller: &mut P, levels: &Levels, events: &Events) -> Result<(), Error>
    ensures { Rearms P.Poller levels.now events.now.items.items poller.old (outcome result) poller.new }
{
    for event in events.items.iter() {
        if let Some(line) = levels.find(event.key) {
            poller.modify(to_request(line, Mode::OneShot))?;
        }
    }
    Ok(())
}

impl<P: Poller, C: Clock> Poll<P, C> {
    // Waits for events: the poller's in their order, then the timers that are due, by rising deadline.
    // Where the re-arming of one fails the wait does, and `events` has those that are lost.
    pub fn poll(&mut self, timeout: Option<u64>, events: &mut PollEvents) -> Result<(), Error>
        ensures is { Polls P.Poller C.Clock timeout (state_of self.old) (outcome result) events.new.items.items (state_of self.new) }
        ensures plain { Between P.Poller C.Clock self.old self.new (λ w xs w'. Waits timeout w xs (outcome result) events.new.items.items w') }
        ensures wakeful { Wakeful (P.Poller.entries self.old.poller) (state_of self.old).lines (P.Poller.entries self.new.poller) (state_of self.new).lines }
        ensures rearmed { outcome result ≡ done tt → Rearmed (state_of self.old).lines events.new.items.items (P.Poller.entries self.new.poller) }
    {
        self.wait(timeout, events)
    }

    fn wait(&mut self, timeout: Option<u64>, events: &mut PollEvents) -> Result<(), Error>
        ensures { Polls P.Poller C.Clock timeout (state_of self.old) (outcome result) events.new.items.items (state_of self.new) }
    {
        events.items.clear();
        let timeout = self.timeout(timeout);
        self.poller.wait(timeout, &mut self.events)?;
        self.hand_out(events);
        self.rearm()?;
        self.take_expired(events);
        Ok(())
    }

    // How long the wait may take: no longer than to the earliest deadline.
    fn timeout(&mut self, given: Option<u64>) -> Option<u64>
        ensures timed { TimedBy C.Clock given (first_deadline (state_of self.old).wheel) self.old.clock self.new.clock result }
        ensures same { state_of self.new ≡ with_clock (state_of self.old) self.new.clock }
    {
        match (given, self.timers.next_deadline()) {
            (Some(timeout), Some(deadline)) => Some(timeout.min(self.time_until(deadline))),
            (None, Some(deadline)) => Some(self.time_until(deadline)),
            (given, None) => given,
        }
    }

    // By a reading of the clock; 0 where the deadline has passed.
    fn time_until(&mut self, deadline: u64) -> u64
        ensures reads { (now : ℕ) × C.Clock.reads self.old.clock now self.new.clock × (result ≡ deadline - now) }
        ensures same { state_of self.new ≡ with_clock (state_of self.old) self.new.clock }
    {
        deadline.saturating_sub(self.clock.now())
    }

    // What the poller reported, as events of the loop.
    fn hand_out(&self, events: &mut PollEvents)
        requires { events.old.items.items ≡ [] }
        ensures { events.new.items.items ≡ map polled self.now.events.items.items }
    {
        // `extend` may allocate, and the memory is reserved.
        for event in self.events.items.iter() {
            events.items.push_reserved(PollEvent::from(*event));
        }
    }

    // Arms again what was reported and stands in the level table.
    fn rearm(&mut self) -> Result<(), Error>
        ensures rearms { RearmsIn P.Poller (state_of self.old).lines self.old.events.items.items self.old.poller (outcome result) self.new.poller }
        ensures same { state_of self.new ≡ with_poller (state_of self.old) self.new.poller }
    {
        match &self.level_triggered {
            None => Ok(()),
            Some(levels) => arm_again(&mut self.poller, levels, &self.events),
        }
    }

    // Takes the timers that are due by a fresh reading of the clock, by rising deadline.
    // What the poller reported leaves room for each of them.
    fn take_expired(&mut self, events: &mut PollEvents)
        requires { vec_len events.old.items ≤ 256 }
        ensures { (clock : ℕ) × C.Clock.reads self.old.clock clock self.new.clock × (events.new.items.items ≡ events.old.items.items ++ map rung (due_by clock (state_of self.old).wheel.timers)) × (state_of self.new ≡ with_wheel (with_clock (state_of self.old) self.new.clock) (rest clock (state_of self.old).wheel)) }
    {
        let clock = self.clock.now();
        while let Some((_, token)) = self.timers.next_expired(clock) {
            events.items.push_reserved(PollEvent {
                class: Class::Timer,
                readiness: Readiness::READ,
                token,
            });
        }
    }
}
