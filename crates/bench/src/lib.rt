// A script's calls on a loop of its own, and the answer to each as text.
#![tactic(auto)]

mod answer;
mod bench;
mod text;

pub use answer::perform;
pub use bench::{Bench, Fixed, Repeat, Source};
pub use text::push_all;
