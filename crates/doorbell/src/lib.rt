// A doorbell: a file that rings, a count, and hooks that hand the rings out.
#![tactic(auto)]

mod doorbell;
mod tokens;

pub use doorbell::Doorbell;
