// What a poller is, with the poller of the test bench and that of a board's lines.
#![tactic(auto)]

mod bench;
mod entry;
mod events;
mod line;
mod poller;
mod table;

pub use bench::{BenchPoller, Step};
pub use entry::{Entry, Event, Interest, Mode, Readiness, Request};
pub use events::Events;
pub use line::LinePoller;
pub use poller::Poller;
pub use table::Table;
