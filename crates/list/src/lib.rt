// The slots of the loop, the list of sources that want hooks, and the idles that wait.
#![tactic(auto)]

mod idles;
mod lifecycle;
mod slots;

pub use idles::{Idle, Idles};
pub use lifecycle::Lifecycle;
pub use slots::{Place, Slot, SourceList};
