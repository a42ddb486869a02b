// A source that rings at a deadline: what it does then is its handler's.
#![tactic(auto)]

mod handler;
mod timer;

pub use alarm::TimeoutAction;
pub use handler::TimerHandler;
pub use timer::Timer;
