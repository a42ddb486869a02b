// A user of any source, over any poller and any clock: registered, and given up. It leans on the rules of source kinds alone.
ghost use Rattle.rules.specs.Kinds.{Free, LettingGo};
ghost use Rattle.rules.specs.Meaning.{Drawn};
ghost use Rattle.sys.specs.World.{Between, world_of};
ghost use Rattle.kinds_tests.specs.Leftovers.{Agreeing, OnlyStuckJoin};
ghost use Rattle.kinds_tests.specs.Timing.{TimersOver};

use kinds::EventSource;
use poller::Poller;
use sys::{Clock, Poll};
use token::TokenFactory;

// Unregisters the source, whatever the poller answers, and lets it go. The two together are a letting go.
pub fn give_up<P: Poller, C: Clock, S: EventSource>(source: &mut S, poll: &mut Poll<P, C>)
    ensures { Between P.Poller C.Clock poll.old poll.new (λ w xs w'. LettingGo (S.EventSource.means source.old) w xs (S.EventSource.means source.new) w') }
{
    let _ = source.unregister(poll);
    source.let_go(poll);
}

// Registers the source, and gives it up again.
pub fn register_and_give_up<P: Poller, C: Clock, S: EventSource>(
    source: &mut S,
    poll: &mut Poll<P, C>,
    factory: &mut TokenFactory,
)
    ensures free { Free (S.EventSource.means source.new) }
    ensures entries { Free (S.EventSource.means source.old) → OnlyStuckJoin (world_of P.Poller poll.old).entries (world_of P.Poller poll.new).entries }
    ensures level { Agreeing (world_of P.Poller poll.old) → Agreeing (world_of P.Poller poll.new) }
    ensures timers { TimersOver (Drawn factory.old factory.new) (S.EventSource.means source.old).counters (world_of P.Poller poll.old).wheel (S.EventSource.means source.new).counters (world_of P.Poller poll.new).wheel }
{
    let _ = source.register(poll, factory);
    give_up(source, poll);
}
