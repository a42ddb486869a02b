// The polling system's type alone. Its fields are private to this crate, so that only its calls change them.
ghost use Rattle.std.specs.Prelude.{◌≡◌, ◌≤◌, List, Some, length};
ghost use Rattle.levels.specs.declared.table.Line.{Line};

use levels::Levels;
use poller::Events;
use timer_wheel::TimerWheel;

#[derive(Drop)]
pub struct Poll<P, C> {
    pub(crate) poller: P,
    pub(crate) clock: C,
    pub(crate) timers: TimerWheel,
    // what the poller reported last
    pub(crate) events: Events,
    // the table that emulates level mode, where the poller does not know it
    pub(crate) level_triggered: Option<Levels>,
    // said here too, since who holds a `Poll` can call nothing of its table
    ghost few: { (lines : List Line) → level_triggered ≡ Some lines → length lines ≤ 256 },
}
