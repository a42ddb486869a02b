// The calls of a source as a table, with what each comes to.
use crate::fixture::{Board, Fixture};
use kinds::{Errand, EventSource};
use post_action::PostAction;
use std::process::Abort;
use std::test::Fail;
use token::Error;

#[derive(Clone, Copy)]
pub enum Call {
    Register,
    Reregister,
    Unregister,
    LetGo,
    // a wait while the file is ready
    Ready,
    // a wait at that time, while no file is ready
    At(u64),
    // an event under that token
    Process(u16),
    // before_sleep
    Sleep,
    // the answer to an errand, and the events of a wait
    Tell,
}

// A token stands here by its sub-id alone; `Fixture` checks the rest of it.
#[derive(Clone, Copy, PartialEq, Eq, Debug)]
pub enum Came {
    // what the source answered, or how a wait failed
    Answer(Result<(), Error>),
    // a wait brought nothing
    Quiet,
    // a wait brought one event: the poller's, or a timer's
    Polled(u16),
    Rung(u16),
    // an event was processed, and this errand was asked for first
    Processed(Result<PostAction, Error>, Option<Errand>),
    // no synthetic event, or one
    Asleep,
    Woken(u16),
}

pub const DONE: Came = Came::Answer(Ok(()));

pub const NOT_FOUND: Came = Came::Answer(Err(Error::NotFound));

pub const EXISTS: Came = Came::Answer(Err(Error::Exists));

pub const FAILED: Came = Came::Answer(Err(Error::PollerFailed(4)));

pub const CONTINUES: Came = Came::Processed(Ok(PostAction::Continue), None);

// A call, and what it comes to.
pub type Row = (Call, Came);

// Makes the calls, one after the other.
pub fn follow<S: EventSource, P: Board>(
    rt: &impl Abort,
    fixture: &mut Fixture<P>,
    source: &mut S,
    table: &[Row],
) -> Result<(), Fail> {
    for (step, (call, came)) in table.iter().enumerate() {
        assert_eq!(rt; fixture.call(source, *call)?, *came, "at step {step}");
    }
    Ok(())
}
