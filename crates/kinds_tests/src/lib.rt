// The rules of source kinds in use: code that knows no kind, no poller and no clock, and each kind over both pollers.
#![tactic(auto)]

mod giving_up;
mod waiting;

pub use giving_up::{give_up, register_and_give_up};
pub use waiting::register_wait_and_give_up;

#[cfg(test)]
mod both;
#[cfg(test)]
mod calls;
#[cfg(test)]
mod errands;
#[cfg(test)]
mod faults;
#[cfg(test)]
mod files;
#[cfg(test)]
mod fixture;
#[cfg(test)]
mod handlers;
#[cfg(test)]
mod timers;
#[cfg(test)]
mod users;
