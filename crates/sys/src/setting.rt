// A clock that is set, and what a script of the test bench does between two calls of the loop.
ghost use Rattle.std.specs.Prelude.{◌≡◌};
ghost use Rattle.poller.specs.Bench.{bench_of};
ghost use Rattle.sys.specs.Setting.{handed_over, set_by};

use crate::clock::{Clock, Environment};
use poller::{BenchPoller, Step};

// Stands where it was set.
#[derive(Clone, Copy)]
pub struct SetClock {
    pub time: u64,
}

impl Clock for SetClock {
    ghost reads = { λ s r t. (r ≡ s.time) × (t ≡ s) };

    fn now(&mut self) -> u64 {
        self.time
    }
}

// The time, and, where it says so, the files that are ready and what the poller's next calls come to.
#[derive(Drop)]
pub struct Setting {
    pub time: u64,
    pub ready: Option<Vec<u32>>,
    pub plan: Option<Vec<Step>>,
}

impl Environment<BenchPoller, SetClock> for Setting {
    ghost arranges = { λ s p c s' p' c'. (bench_of p' ≡ set_by s (bench_of p)) × (c'.time ≡ s.time) × (s' ≡ handed_over s) };

    fn arrange(&mut self, poller: &mut BenchPoller, clock: &mut SetClock) {
        clock.time = self.time;
        if let Some(files) = self.ready.take() {
            poller.make_ready(files);
        }
        if let Some(steps) = self.plan.take() {
            poller.plan(steps);
        }
    }
}
