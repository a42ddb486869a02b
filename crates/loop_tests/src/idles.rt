// Idles that wait: 64 at most.
use crate::calls::{Call, Came, Kind, Row};
use crate::fixture::Fixture;
use std::process::Abort;
use std::test::Fail;

// The other calls do not mind.
const FULL: &[Row] = &[
    (Call::Idle(9), Came::No(5)),
    (Call::Idle(9), Came::No(5)),
    (Call::Insert(Kind::Level, 7), Came::Token(0, 0)),
    (Call::Remove(0, 0), Came::Left(true)),
];

// The tickets count from 0, whatever the values are.
fn fill(rt: &impl Abort, fixture: &mut Fixture) -> Result<(), Fail> {
    for ticket in 0..64u32 {
        let value = ticket / 2;
        fixture.follow(rt, &[(Call::Idle(value), Came::Ticket(ticket))])?;
    }
    fixture.follow(rt, FULL)
}

#[test]
fn idles_wait(rt: HostRuntime) -> Result<(), Fail> {
    let mut fixture = Fixture::new(rt.alloc())?;
    let answer = fill(&rt, &mut fixture);
    fixture.end();
    answer
}
