// Enable, update and disable.
use crate::calls::{Call, Came, FAILED, Kind, Row};
use crate::fixture::follow_each;
use event_loop::Verdict;
use std::test::Fail;
use sys::Class;

// The source over file 7 has its event.
const DELIVERED: Row = (
    Call::Ready(7),
    Came::Event(Class::Polled, 0, 0, Verdict::Delivered),
);

// The source with the deadline 50 has its event, and leaves by it.
const RUNG: Row = (
    Call::At(50),
    Came::Event(Class::Timer, 0, 0, Verdict::Delivered),
);

// Only a source that was unregistered may be enabled.
const ENABLE: &[Row] = &[
    (Call::Insert(Kind::Level, 7), Came::Token(0, 0)),
    (Call::Enable(0, 0), Came::No(3)),
    (Call::Disable(0, 0), Came::Accepted),
    (Call::Ready(7), Came::Quiet),
    (Call::Enable(0, 0), Came::Accepted),
    (Call::Enable(0, 0), Came::No(3)),
    DELIVERED,
    // a refused enable leaves it disabled
    (Call::Disable(0, 0), Came::Accepted),
    (Call::Fail(1), Came::Accepted),
    (Call::Enable(0, 0), FAILED),
    (Call::Ready(7), Came::Quiet),
    (Call::Enable(0, 0), Came::Accepted),
    DELIVERED,
];

// A refused update leaves the source as it was.
const UPDATE: &[Row] = &[
    (Call::Insert(Kind::OneShot, 7), Came::Token(0, 0)),
    DELIVERED,
    (Call::Ready(7), Came::Quiet),
    (Call::Fail(1), Came::Accepted),
    (Call::Update(0, 0), FAILED),
    (Call::Ready(7), Came::Quiet),
    (Call::Enable(0, 0), Came::No(3)),
    // an accepted one arms its file again
    (Call::Update(0, 0), Came::Accepted),
    DELIVERED,
    (Call::Enable(0, 0), Came::No(3)),
];

// So does a refused disable.
const DISABLE: &[Row] = &[
    (Call::Insert(Kind::Level, 7), Came::Token(0, 0)),
    (Call::Fail(1), Came::Accepted),
    (Call::Disable(0, 0), FAILED),
    (Call::Enable(0, 0), Came::No(3)),
    DELIVERED,
    (Call::Disable(0, 0), Came::Accepted),
    (Call::Ready(7), Came::Quiet),
    // a Generic that is disabled can be neither updated nor disabled
    (Call::Update(0, 0), Came::No(12)),
    (Call::Disable(0, 0), Came::No(12)),
    (Call::Ready(7), Came::Quiet),
    (Call::Enable(0, 0), Came::Accepted),
    DELIVERED,
];

// A Timer that is disabled can be both, and an update enables it.
const TIMER: &[Row] = &[
    (Call::Insert(Kind::Timer, 50), Came::Token(0, 0)),
    (Call::At(49), Came::Quiet),
    (Call::Disable(0, 0), Came::Accepted),
    (Call::Disable(0, 0), Came::Accepted),
    (Call::At(50), Came::Quiet),
    (Call::Update(0, 0), Came::Accepted),
    (Call::Enable(0, 0), Came::No(3)),
    RUNG,
    (Call::Update(0, 0), Came::No(1)),
    (Call::Insert(Kind::Timer, 50), Came::Token(0, 1)),
];

// An update of an enabled one enters its deadline once.
const TIMER_UPDATED: &[Row] = &[
    (Call::Insert(Kind::Timer, 50), Came::Token(0, 0)),
    (Call::Update(0, 0), Came::Accepted),
    (Call::At(49), Came::Quiet),
    RUNG,
    (Call::At(50), Came::Quiet),
];

#[test]
fn enabled_and_disabled(rt: HostRuntime) -> Result<(), Fail> {
    let tables = [ENABLE, UPDATE, DISABLE, TIMER, TIMER_UPDATED];
    follow_each(&rt, rt.alloc(), &tables)
}
