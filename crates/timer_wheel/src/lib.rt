// The timers of the loop, in order of deadline.
#![tactic(auto)]

#[cfg(test)]
mod tests;
mod timeout;
mod wheel;

pub use timeout::TimeoutData;
pub use wheel::TimerWheel;
