// What a removed source leaves in the poller.
use crate::calls::{Call, Came, Kind, Row};
use crate::fixture::follow_each;
use event_loop::Verdict;
use std::test::Fail;
use sys::Class;

const UNREGISTERS: &[Row] = &[
    (Call::Insert(Kind::Level, 7), Came::Token(0, 0)),
    (Call::Remove(0, 0), Came::Left(true)),
    (Call::Remove(0, 0), Came::Left(false)),
    (Call::Ready(7), Came::Quiet),
    (Call::Insert(Kind::Level, 7), Came::Token(0, 1)),
    // the old token does not reach the newcomer
    (Call::Remove(0, 0), Came::Left(false)),
    (
        Call::Ready(7),
        Came::Event(Class::Polled, 0, 1, Verdict::Delivered),
    ),
];

// Where the poller refuses once, letting go takes the entry away.
const LETS_GO: &[Row] = &[
    (Call::Insert(Kind::Level, 7), Came::Token(0, 0)),
    (Call::Fail(1), Came::Accepted),
    (Call::Remove(0, 0), Came::Left(true)),
    (Call::Ready(7), Came::Quiet),
    (Call::Insert(Kind::Level, 7), Came::Token(0, 1)),
];

// Where it refuses twice the entry is stuck: it reports once more, to nobody, and keeps all from the file.
const STUCK: &[Row] = &[
    (Call::Insert(Kind::Level, 7), Came::Token(0, 0)),
    (Call::Fail(2), Came::Accepted),
    (Call::Remove(0, 0), Came::Left(true)),
    (Call::Remove(0, 0), Came::Left(false)),
    (Call::Insert(Kind::Level, 7), Came::No(11)),
    (Call::Insert(Kind::Level, 8), Came::Token(0, 2)),
    (
        Call::Ready(7),
        Came::Event(Class::Polled, 0, 0, Verdict::Stale),
    ),
    (Call::Ready(7), Came::Quiet),
    (Call::Again, Came::No(11)),
];

// A disabled source is let go without asking the poller: the fault meets the wait.
const DISABLED: &[Row] = &[
    (Call::Insert(Kind::Level, 7), Came::Token(0, 0)),
    (Call::Disable(0, 0), Came::Accepted),
    (Call::Fail(1), Came::Accepted),
    (Call::Remove(0, 0), Came::Left(true)),
    (Call::Ready(7), Came::Fault(14, 4)),
    (Call::Insert(Kind::Level, 7), Came::Token(0, 1)),
];

const TIMER: &[Row] = &[
    (Call::Insert(Kind::Timer, 50), Came::Token(0, 0)),
    (Call::Remove(0, 0), Came::Left(true)),
    (Call::At(50), Came::Quiet),
    (Call::Insert(Kind::Timer, 60), Came::Token(0, 1)),
    (Call::At(59), Came::Quiet),
    (
        Call::At(60),
        Came::Event(Class::Timer, 0, 1, Verdict::Delivered),
    ),
    // it left when it rang
    (Call::Remove(0, 1), Came::Left(false)),
];

#[test]
fn sources_leave(rt: HostRuntime) -> Result<(), Fail> {
    let tables = [UNREGISTERS, LETS_GO, STUCK, DISABLED, TIMER];
    follow_each(&rt, rt.alloc(), &tables)
}
