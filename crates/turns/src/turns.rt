// The turns of the events of a wait.
ghost use Rattle.std.specs.Prelude.{◌≡◌, ◌+◌, ◌≤◌, ◌++◌, length, vec_len};
ghost use Rattle.model.specs.Course.{Takes};
ghost use Rattle.model.specs.Dispatch.{lost, turns_of};
ghost use Rattle.sys.specs.World.{Between};
ghost use Rattle.turns.specs.Turns.{turns_as};
ghost use Rattle.token.specs.Refusal.{done, outcome};

use crate::inner::LoopInner;
use kinds::EventSource;
use poller::Poller;
use sheet::{Line, Sheet, Verdict};
use sys::{Clock, PollEvent};
use token::Error;

impl<P: Poller, C: Clock, S: EventSource> LoopInner<P, C, S> {
    // Gives each event its turn and its line. At a fault the later events are lost.
    pub fn turns(&mut self, events: &[PollEvent], sheet: &mut Sheet) -> Result<(), Error>
        requires { vec_len sheet.old.items + length events.now ≤ 640 }
        ensures count { vec_len sheet.new.items ≡ vec_len sheet.old.items + length events.now }
        ensures is { Between P.Poller C.Clock self.old.handle.registry.poll self.new.handle.registry.poll (λ w xs w'. Takes S.EventSource (turns_of S.EventSource events.now (turns_as (done tt) self.old w sheet.old.items.items)) xs (turns_as (outcome result) self.new w' sheet.new.items.items)) }
    {
        for (i, &event) in events.iter().enumerate() {
            let turn = self.turn(event);
            // a source whose turn failed was called
            let verdict = turn.unwrap_or(Verdict::Delivered);
            sheet.items.push_reserved(Line::new(event, verdict));
            if let Err(error) = turn {
                lose(&events[i + 1..], sheet);
                return Err(error);
            }
        }
        Ok(())
    }
}

// Notes events whose turn never comes, one by one, since `extend` may allocate. A function of its own, for faults
// in a turn, in the hooks' turns and in the wait; each of the three answers its own fault.
pub fn lose(events: &[PollEvent], sheet: &mut Sheet)
    requires { vec_len sheet.old.items + length events.now ≤ 640 }
    ensures { sheet.new.items.items ≡ sheet.old.items.items ++ lost events.now }
{
    for &event in events {
        sheet.items.push_reserved(Line::new(event, Verdict::Lost));
    }
}
