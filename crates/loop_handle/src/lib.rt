// The user's calls on the sources, each proved equal to its definition in `model`.
#![tactic(auto)]

mod calls;
mod handle;
mod registry;

pub use handle::{InsertError, LoopHandle, Registry};
