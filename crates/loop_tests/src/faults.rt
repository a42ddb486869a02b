// Inserts that are refused: the source is handed back, and its slot is empty at its new version.
use crate::calls::{Call, Came, FAILED, Kind, Row};
use crate::fixture::follow_each;
use event_loop::Verdict;
use std::test::Fail;
use sys::Class;

// Another source has the file.
const EXISTS: &[Row] = &[
    (Call::Insert(Kind::Level, 7), Came::Token(0, 0)),
    (Call::Insert(Kind::Level, 7), Came::No(11)),
    (Call::Enable(1, 0), Came::No(1)),
    (Call::Remove(1, 0), Came::Left(false)),
    (Call::Insert(Kind::Level, 8), Came::Token(1, 1)),
    (Call::Again, Came::No(11)),
    (Call::Remove(0, 0), Came::Left(true)),
    (Call::Again, Came::Token(0, 1)),
    (
        Call::Ready(7),
        Came::Event(Class::Polled, 0, 1, Verdict::Delivered),
    ),
    (Call::Insert(Kind::Level, 9), Came::Token(2, 1)),
];

// The poller fails at add.
const FAULT: &[Row] = &[
    (Call::Fail(2), Came::Accepted),
    (Call::Insert(Kind::Level, 7), FAILED),
    (Call::Ready(7), FAILED),
    (Call::Ready(7), Came::Quiet),
    (Call::Update(0, 0), Came::No(1)),
    (Call::Again, Came::Token(0, 1)),
    (
        Call::Ready(7),
        Came::Event(Class::Polled, 0, 1, Verdict::Delivered),
    ),
];

const EDGE: &[Row] = &[
    (Call::Insert(Kind::Edge, 7), Came::No(21)),
    (Call::Again, Came::No(21)),
    (Call::Insert(Kind::OneShot, 7), Came::Token(0, 2)),
];

// There are 256 timers at most.
const TIMERS: &[Row] = &[
    (Call::Fill(Kind::Timer, 1_000), Came::Fitted(256, 16)),
    (Call::Insert(Kind::Timer, 50), Came::No(16)),
    (Call::Remove(255, 0), Came::Left(true)),
    (Call::Again, Came::Token(255, 1)),
    (
        Call::At(50),
        Came::Event(Class::Timer, 255, 1, Verdict::Delivered),
    ),
    (Call::Insert(Kind::Level, 7), Came::Token(255, 2)),
    (Call::Insert(Kind::Level, 8), Came::Token(256, 2)),
];

// There are 256 entries of the poller at most.
const ENTRIES: &[Row] = &[
    (Call::Fill(Kind::OneShot, 0), Came::Fitted(256, 13)),
    (Call::Insert(Kind::Level, 256), Came::No(13)),
    (Call::Disable(9, 0), Came::Accepted),
    (Call::Again, Came::Token(256, 2)),
    (Call::Enable(9, 0), Came::No(13)),
    (Call::Remove(256, 2), Came::Left(true)),
    (Call::Enable(9, 0), Came::Accepted),
];

// And 256 lines of the level table, which is asked first.
const LINES: &[Row] = &[
    (Call::Fill(Kind::Level, 0), Came::Fitted(256, 20)),
    (Call::Insert(Kind::OneShot, 256), Came::No(13)),
    (Call::Update(9, 0), Came::Accepted),
    (Call::Disable(9, 0), Came::Accepted),
    (Call::Again, Came::Token(256, 2)),
];

#[test]
fn inserts_are_refused(rt: HostRuntime) -> Result<(), Fail> {
    let tables = [EXISTS, FAULT, EDGE, TIMERS, ENTRIES, LINES];
    follow_each(&rt, rt.alloc(), &tables)
}
