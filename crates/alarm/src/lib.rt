// A deadline of a source: its timer in the wheel, written and proved once for every kind that has one.
#![tactic(auto)]

mod alarm;

pub use alarm::{Alarm, Registration, TimeoutAction};
