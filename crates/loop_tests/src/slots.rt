// Which slot is given out, and at which version.
use crate::calls::{Call, Came, Kind, Row};
use crate::fixture::{Fixture, follow};
use event_loop::Verdict;
use std::process::Abort;
use std::test::Fail;
use sys::Class;

// The lowest empty slot, in whatever order they were emptied.
const LOWEST_FIRST: &[Row] = &[
    (Call::Insert(Kind::Timer, 9), Came::Token(0, 0)),
    (Call::Insert(Kind::Timer, 9), Came::Token(1, 0)),
    (Call::Insert(Kind::Timer, 9), Came::Token(2, 0)),
    (Call::Insert(Kind::Timer, 9), Came::Token(3, 0)),
    (Call::Insert(Kind::Timer, 9), Came::Token(4, 0)),
    (Call::Remove(3, 0), Came::Left(true)),
    (Call::Remove(1, 0), Came::Left(true)),
    (Call::Remove(4, 0), Came::Left(true)),
    (Call::Insert(Kind::Timer, 9), Came::Token(1, 1)),
    (Call::Insert(Kind::Timer, 9), Came::Token(3, 1)),
    (Call::Remove(1, 1), Came::Left(true)),
    (Call::Insert(Kind::Timer, 9), Came::Token(1, 2)),
    (Call::Insert(Kind::Timer, 9), Came::Token(4, 1)),
    (Call::Insert(Kind::Timer, 9), Came::Token(5, 0)),
];

#[test]
fn lowest_first(rt: HostRuntime) -> Result<(), Fail> {
    follow(&rt, rt.alloc(), LOWEST_FIRST)
}

// Once 1,024 slots are occupied.
const NO_SLOT: &[Row] = &[
    (Call::Insert(Kind::Level, 8), Came::No(4)),
    (Call::Remove(500, 0), Came::Left(true)),
    (Call::Again, Came::Token(500, 1)),
    (
        Call::Ready(8),
        Came::Event(Class::Polled, 500, 1, Verdict::Delivered),
    ),
    (Call::Insert(Kind::Level, 9), Came::No(4)),
    (Call::Enable(1_023, 0), Came::Accepted),
    (
        Call::Ready(7),
        Came::Event(Class::Polled, 1_023, 0, Verdict::Delivered),
    ),
];

// Disabled sources occupy their slots, and nothing else that is scarce.
fn take_all(rt: &impl Abort, fixture: &mut Fixture) -> Result<(), Fail> {
    for id in 0..1_024u32 {
        let calls = [
            (Call::Insert(Kind::Level, 7), Came::Token(id, 0)),
            (Call::Disable(id, 0), Came::Accepted),
        ];
        fixture.follow(rt, &calls)?;
    }
    fixture.follow(rt, NO_SLOT)
}

#[test]
fn all_are_taken(rt: HostRuntime) -> Result<(), Fail> {
    let mut fixture = Fixture::new(rt.alloc())?;
    let answer = take_all(&rt, &mut fixture);
    fixture.end();
    answer
}

const BEGINS: &[Row] = &[
    (Call::Insert(Kind::Timer, 9), Came::Token(0, 0)),
    (Call::Remove(0, 0), Came::Left(true)),
];

// After version 65,535 comes 0, and only then the first token fits again.
const COMES_ROUND: &[Row] = &[
    (Call::Insert(Kind::Timer, 9), Came::Token(0, 0)),
    (Call::Enable(0, 65_535), Came::No(1)),
    (Call::Enable(0, 0), Came::No(3)),
    (Call::Remove(0, 0), Came::Left(true)),
    (Call::Insert(Kind::Timer, 9), Came::Token(0, 1)),
];

fn refill(rt: &impl Abort, fixture: &mut Fixture) -> Result<(), Fail> {
    fixture.follow(rt, BEGINS)?;
    for version in 1..=65_535u16 {
        let calls = [
            (Call::Insert(Kind::Timer, 9), Came::Token(0, version)),
            (Call::Enable(0, 0), Came::No(1)),
            (Call::Remove(0, version), Came::Left(true)),
        ];
        fixture.follow(rt, &calls)?;
    }
    fixture.follow(rt, COMES_ROUND)
}

#[test]
fn versions_come_round(rt: HostRuntime) -> Result<(), Fail> {
    let mut fixture = Fixture::new(rt.alloc())?;
    let answer = refill(&rt, &mut fixture);
    fixture.end();
    answer
}
