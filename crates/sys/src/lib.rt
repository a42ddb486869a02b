// The polling system: poller, level table, timers and clock.
#![tactic(auto)]

mod clock;
mod event;
mod poll;
mod registering;
mod setting;
mod waiting;

pub use clock::{Clock, Environment};
pub use event::{Class, PollEvent, PollEvents};
pub use poll::Poll;
pub use setting::{SetClock, Setting};
