// A source over one file: what it does when the file is ready is its handler's.
#![tactic(auto)]

mod generic;
mod handler;

pub use generic::Generic;
pub use handler::GenericHandler;
