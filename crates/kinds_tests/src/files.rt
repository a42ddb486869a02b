// A source with one file, over any poller: its calls from the first registration on.
use crate::calls::{CONTINUES, Call, Came, DONE, NOT_FOUND, Row};
use crate::fixture::FILE;
use crate::handlers::Asks;
use doorbell::Doorbell;
use either::Either;
use generic::Generic;
use kinds::Errand;
use poller::{Interest, Mode};
use post_action::PostAction;

pub type Both = Either<Generic<Asks>, Doorbell>;

// Its handler asks for an idle.
pub fn generic(mode: Mode) -> Generic<Asks> {
    let handler = Asks {
        errand: Errand::Idle(5),
        answer: Ok(PostAction::Reregister),
    };
    Generic::new(FILE, Interest::READ, mode, handler)
}

pub fn left(mode: Mode) -> Both {
    Either::Left(generic(mode))
}

pub fn doorbell() -> Doorbell {
    Doorbell::new(FILE)
}

pub fn right() -> Both {
    Either::Right(doorbell())
}

// The handler was called.
pub const HANDLED: Came = Came::Processed(Ok(PostAction::Reregister), Some(Errand::Idle(5)));

// Of a Generic in one-shot mode.
pub const GENERIC: &[Row] = &[
    (Call::Ready, Came::Quiet),
    (Call::Register, DONE),
    (Call::Ready, Came::Polled(0)),
    (Call::Ready, Came::Quiet),
    (Call::Process(0), HANDLED),
    (Call::Tell, DONE),
    (Call::Reregister, DONE),
    (Call::Ready, Came::Polled(1)),
    (Call::Process(0), CONTINUES),
    (Call::Process(1), HANDLED),
    (Call::Sleep, Came::Asleep),
    (Call::Unregister, DONE),
    (Call::Ready, Came::Quiet),
    (Call::Process(1), CONTINUES),
    (Call::Unregister, NOT_FOUND),
    (Call::Reregister, NOT_FOUND),
    (Call::Register, DONE),
    (Call::LetGo, DONE),
    (Call::Ready, Came::Quiet),
    (Call::Unregister, NOT_FOUND),
    (Call::Register, DONE),
    (Call::LetGo, DONE),
];

// Of a Generic in level mode, which is reported as long as its file is ready.
pub const LEVEL: &[Row] = &[
    (Call::Register, DONE),
    (Call::Ready, Came::Polled(0)),
    (Call::Ready, Came::Polled(0)),
    (Call::At(0), Came::Quiet),
    (Call::Ready, Came::Polled(0)),
    (Call::LetGo, DONE),
    (Call::Ready, Came::Quiet),
];

// Of a Doorbell, which draws two tokens, and hands each ring out under the second.
pub const DOORBELL: &[Row] = &[
    (Call::Register, DONE),
    (Call::Sleep, Came::Asleep),
    (Call::Ready, Came::Polled(0)),
    (Call::Process(0), CONTINUES),
    (Call::Ready, Came::Polled(0)),
    (Call::Process(0), CONTINUES),
    (Call::Tell, DONE),
    (Call::Sleep, Came::Woken(1)),
    (Call::Process(1), CONTINUES),
    (Call::Sleep, Came::Woken(1)),
    (Call::Process(1), CONTINUES),
    (Call::Sleep, Came::Asleep),
    // nothing happens at 0
    (Call::Process(1), CONTINUES),
    (Call::Process(0), CONTINUES),
    (Call::Sleep, Came::Woken(1)),
    // the count stays where the tokens change
    (Call::Reregister, DONE),
    (Call::Ready, Came::Polled(2)),
    (Call::Process(0), CONTINUES),
    (Call::Process(1), CONTINUES),
    (Call::Sleep, Came::Woken(3)),
    (Call::Process(3), CONTINUES),
    (Call::Sleep, Came::Asleep),
    (Call::Process(2), CONTINUES),
    // without tokens no ring is handed out
    (Call::Unregister, DONE),
    (Call::Sleep, Came::Asleep),
    (Call::Ready, Came::Quiet),
    (Call::Unregister, NOT_FOUND),
    (Call::Reregister, NOT_FOUND),
    (Call::Register, DONE),
    (Call::Sleep, Came::Woken(5)),
    (Call::LetGo, DONE),
    (Call::Ready, Came::Quiet),
    (Call::Unregister, NOT_FOUND),
];
