// Tokens that fit no slot.
use crate::calls::{Call, Came, Kind, Row};
use crate::fixture::Fixture;
use event_loop::Verdict;
use std::process::Abort;
use std::test::Fail;
use sys::Class;

// Slot 0 was emptied, slot 1 has a source at version 1, and no other slot was given out.
const SLOTS: &[Row] = &[
    (Call::Insert(Kind::Timer, 9), Came::Token(0, 0)),
    (Call::Insert(Kind::Timer, 9), Came::Token(1, 0)),
    (Call::Remove(1, 0), Came::Left(true)),
    (Call::Insert(Kind::Level, 7), Came::Token(1, 1)),
    (Call::Remove(0, 0), Came::Left(true)),
];

// Their ids and versions. A slot that was never given out has no version.
const UNFIT: [(u32, u16); 11] = [
    (0, 0),
    (0, 1),
    (0, 65_535),
    (1, 0),
    (1, 2),
    (1, 257),
    (2, 0),
    (2, 65_535),
    (1_023, 0),
    (1_024, 0),
    (u32::MAX, u16::MAX),
];

// None of the calls reached the source that stands.
const STANDS: &[Row] = &[
    (
        Call::Ready(7),
        Came::Event(Class::Polled, 1, 1, Verdict::Delivered),
    ),
    (Call::Enable(1, 1), Came::No(3)),
    (Call::Insert(Kind::Timer, 9), Came::Token(0, 1)),
    (Call::Insert(Kind::Timer, 9), Came::Token(2, 0)),
];

fn use_unfit(rt: &impl Abort, fixture: &mut Fixture) -> Result<(), Fail> {
    fixture.follow(rt, SLOTS)?;
    for (id, version) in UNFIT {
        let calls = [
            (Call::Enable(id, version), Came::No(1)),
            (Call::Update(id, version), Came::No(1)),
            (Call::Disable(id, version), Came::No(1)),
            (Call::Remove(id, version), Came::Left(false)),
        ];
        fixture.follow(rt, &calls)?;
    }
    fixture.follow(rt, STANDS)
}

#[test]
fn unfit_tokens(rt: HostRuntime) -> Result<(), Fail> {
    let mut fixture = Fixture::new(rt.alloc())?;
    let answer = use_unfit(&rt, &mut fixture);
    fixture.end();
    answer
}
