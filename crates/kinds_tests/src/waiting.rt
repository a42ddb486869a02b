// The same user with a wait between the two.
ghost use Rattle.std.specs.Prelude.{◌≡◌, []};
ghost use Rattle.rules.specs.Kinds.{Free};
ghost use Rattle.rules.specs.Meaning.{Drawn};
ghost use Rattle.sys.specs.Polling.{state_of};
ghost use Rattle.sys.specs.World.{world_of};
ghost use Rattle.kinds_tests.specs.Leftovers.{Agreeing, OnlyStuckJoin, unarmed};
ghost use Rattle.kinds_tests.specs.Timing.{Timed};

use crate::giving_up::give_up;
use kinds::EventSource;
use poller::Poller;
use sys::{Clock, Poll, PollEvents};
use token::TokenFactory;

// Registers the source, waits once, and gives it up. What came is dropped, the source's own events too.
pub fn register_wait_and_give_up<P: Poller, C: Clock, S: EventSource>(
    source: &mut S,
    poll: &mut Poll<P, C>,
    factory: &mut TokenFactory,
    timeout: Option<u64>,
    events: &mut PollEvents,
)
    ensures free { Free (S.EventSource.means source.new) }
    ensures entries { Free (S.EventSource.means source.old) → Agreeing (world_of P.Poller poll.old) → OnlyStuckJoin (unarmed (world_of P.Poller poll.old)) (unarmed (world_of P.Poller poll.new)) }
    ensures level { Agreeing (world_of P.Poller poll.old) → Agreeing (world_of P.Poller poll.new) }
    ensures timers { Timed C.Clock (Drawn factory.old factory.new) (state_of poll.old).clock (S.EventSource.means source.old).counters (world_of P.Poller poll.old).wheel (state_of poll.new).clock (S.EventSource.means source.new).counters (world_of P.Poller poll.new).wheel }
    ensures events { events.new.items.items ≡ [] }
{
    let _ = source.register(poll, factory);
    let _ = poll.poll(timeout, events);
    events.items.clear();
    give_up(source, poll);
}
