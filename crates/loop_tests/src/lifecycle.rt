// Lifecycle entries: 128 at most. How many a call left shows by how many doorbells fit then.
use crate::calls::{Call, Came, FAILED, Kind, Row};
use crate::fixture::follow_each;
use std::test::Fail;

const INSERTED: Row = (Call::Insert(Kind::Doorbell, 7), Came::Token(0, 0));

const FAIL: Row = (Call::Fail(1), Came::Accepted);

// Doorbells over files that no other source has.
const FILL: Call = Call::Fill(Kind::Doorbell, 1_000);

// A refused insert leaves its slot empty at the new version. Sources without hooks need no entry.
const FULL: &[Row] = &[
    (FILL, Came::Fitted(128, 18)),
    (Call::Enable(128, 0), Came::No(1)),
    (Call::Insert(Kind::Doorbell, 7), Came::No(18)),
    (Call::Insert(Kind::Level, 7), Came::Token(128, 2)),
    (Call::Update(128, 2), Came::Accepted),
    (Call::Remove(128, 2), Came::Left(true)),
    (Call::Update(127, 0), Came::No(18)),
    (Call::Enable(127, 0), Came::No(3)),
    // the update did not ask the poller: the fault meets the delete
    FAIL,
    (Call::Update(127, 0), Came::No(18)),
    (Call::Disable(127, 0), FAILED),
    (Call::Disable(127, 0), Came::Accepted),
    (Call::Again, Came::Token(128, 3)),
    (Call::Enable(127, 0), Came::No(18)),
    // nor did the enable
    FAIL,
    (Call::Enable(127, 0), Came::No(18)),
    (Call::Disable(128, 3), FAILED),
    (Call::Remove(128, 3), Came::Left(true)),
    (Call::Enable(127, 0), Came::Accepted),
    (Call::Insert(Kind::Doorbell, 7), Came::No(18)),
];

// A failed insert leaves none.
const INSERT: &[Row] = &[
    (Call::Insert(Kind::Level, 7), Came::Token(0, 0)),
    (Call::Insert(Kind::Doorbell, 7), Came::No(11)),
    FAIL,
    (Call::Insert(Kind::Doorbell, 8), FAILED),
    (FILL, Came::Fitted(128, 18)),
];

// An accepted update makes one more, and a refused one none.
const UPDATE: &[Row] = &[
    INSERTED,
    (Call::Update(0, 0), Came::Accepted),
    (Call::Update(0, 0), Came::Accepted),
    FAIL,
    (Call::Update(0, 0), FAILED),
    (FILL, Came::Fitted(125, 18)),
    // a disable drops them all
    (Call::Disable(0, 0), Came::Accepted),
    (Call::Fill(Kind::Doorbell, 2_000), Came::Fitted(3, 18)),
];

// A refused disable keeps them.
const DISABLE: &[Row] = &[
    INSERTED,
    (Call::Update(0, 0), Came::Accepted),
    FAIL,
    (Call::Disable(0, 0), FAILED),
    (FILL, Came::Fitted(126, 18)),
];

// A refused enable keeps its own, each time.
const ENABLE: &[Row] = &[
    INSERTED,
    (Call::Disable(0, 0), Came::Accepted),
    (Call::Fail(2), Came::Accepted),
    (Call::Enable(0, 0), FAILED),
    (Call::Enable(0, 0), FAILED),
    // a Doorbell that is disabled refuses both, and its entries stay
    (Call::Update(0, 0), Came::No(12)),
    (Call::Disable(0, 0), Came::No(12)),
    (FILL, Came::Fitted(126, 18)),
];

const ENABLED_LATER: &[Row] = &[
    INSERTED,
    (Call::Disable(0, 0), Came::Accepted),
    FAIL,
    (Call::Enable(0, 0), FAILED),
    (Call::Enable(0, 0), Came::Accepted),
    (FILL, Came::Fitted(126, 18)),
];

// A remove drops them all, also where the poller refuses.
const REMOVE: &[Row] = &[
    INSERTED,
    (Call::Update(0, 0), Came::Accepted),
    (Call::Fail(2), Came::Accepted),
    (Call::Remove(0, 0), Came::Left(true)),
    (Call::Insert(Kind::Doorbell, 7), Came::No(11)),
    (FILL, Came::Fitted(128, 18)),
];

#[test]
fn entries_come_and_go(rt: HostRuntime) -> Result<(), Fail> {
    let tables = [FULL, INSERT, UPDATE, DISABLE, ENABLE, ENABLED_LATER, REMOVE];
    follow_each(&rt, rt.alloc(), &tables)
}
