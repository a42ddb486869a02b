// Time, and what happens outside the loop.
ghost use Rattle.std.specs.Prelude.{◌≡◌, ℕ};

use poller::Poller;

// A trait and no closure: only `now` gives `reads`, which ties a reading to its clock.
pub trait Clock {
    // What a reading may be. Only `now` gives it, so that nobody can claim a reading that was not made.
    ghost reads: { Self → ℕ → Self → Type 0 };

    // A reading in nanoseconds. Readings may stand still or run backwards.
    fn now(&mut self) -> u64
        ensures { reads self.old result self.new };
}

// What the world does to the poller's lines and the clock between two calls of the loop.
// It leaves the poller's entries alone; that stands here, where of a closure each caller would have to prove it.
pub trait Environment<P: Poller, C: Clock> {
    // What this makes of the poller and the clock, each as it was and as it is then. Only `arrange` gives it.
    ghost arranges: { Self → P → C → Self → P → C → Type 0 };

    fn arrange(&mut self, poller: &mut P, clock: &mut C)
        ensures is { arranges self.old poller.old clock.old self.new poller.new clock.new }
        ensures entries { P.Poller.entries poller.new ≡ P.Poller.entries poller.old }
        ensures most { P.Poller.most poller.new ≡ P.Poller.most poller.old };
}
