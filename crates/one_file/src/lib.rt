// One file of a source: its registration, written and proved once for every kind that has one.
#![tactic(auto)]

mod one_file;
mod tickets;

pub use one_file::OneFile;
pub use tickets::Tickets;
