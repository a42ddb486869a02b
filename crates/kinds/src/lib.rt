// Source kinds by their rules: what each call of one owes, as laws, and the sum of two.
#![tactic(auto)]

mod errand;
mod errands;
mod events;
mod source;
mod spare;
mod sum;

pub use either::Either;
pub use errand::{Errand, Reply};
pub use errands::Errands;
pub use events::EventIterator;
pub use source::EventSource;
pub use spare::Spare;
