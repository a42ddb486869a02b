// What is done with the sources around a wait: their hooks, and the turn of each event.
#![tactic(auto)]

mod decide;
mod hooks;
mod inner;
mod turn;
mod turns;

pub use inner::LoopInner;
pub use turns::lose;
