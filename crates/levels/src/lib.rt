// The level table: which file and interest stand for a key, over a poller without level mode.
#![tactic(auto)]

mod table;

pub use table::{Levels, Line};
