// The loop: sources in slots, and their events handed to them.
#![tactic(auto)]

mod calls;
mod dispatch;
mod remaining;
mod state;

pub use loop_handle::InsertError;
pub use sheet::{Line, Sheet, Verdict};
pub use state::EventLoop;
