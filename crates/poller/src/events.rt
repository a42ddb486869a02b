// The events of one wait, in memory that was reserved beforehand.
use crate::entry::Event;
use bounded::Bounded;

pub type Events = Bounded<Event, 256>;
