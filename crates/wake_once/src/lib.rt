// A source kind of one's own, as an example: no file, no timer, and one event of its own after each registration.
#![tactic(auto)]

mod wake_once;

pub use wake_once::WakeOnce;

#[cfg(test)]
mod tests;
