// A handler that asks for errands, and one that fails.
use crate::calls::{Call, Came, DONE, Row, follow};
use crate::files;
use crate::fixture::{FILE, Fixture, token};
use crate::handlers::Asks;
use generic::Generic;
use kinds::{Errand, Errands, EventSource};
use poller::{BenchPoller, Interest, Mode, Readiness};
use std::test::Fail;
use token::Error;

#[test]
fn ninth_errand_is_refused(rt: HostRuntime) -> Result<(), Fail> {
    let heap = rt.alloc();
    let mut fixture = Fixture::<BenchPoller>::new(heap)?;
    let mut source = files::generic(Mode::OneShot);
    source.register(&mut fixture.poll, &mut fixture.factory)?;
    let mut errands = Errands::new(heap)?;
    for ticket in 0..8 {
        errands.push(Errand::Cancel(ticket))?;
    }
    let answer = source.process_events(&mut fixture.poll, Readiness::READ, token(0), &mut errands);
    assert_eq!(rt; answer, Err(Error::ErrandsFull));
    assert_eq!(rt; errands.as_slice().len(), 8);
    assert_eq!(rt; errands.as_slice().last().copied(), Some(Errand::Cancel(7)));
    Ok(())
}

const OWN_FAULT: &[Row] = &[
    (Call::Register, DONE),
    (
        Call::Process(0),
        Came::Processed(Err(Error::SourceFailed(6)), Some(Errand::Insert(2))),
    ),
    (Call::Unregister, DONE),
];

#[test]
fn handler_fails(rt: HostRuntime) -> Result<(), Fail> {
    let mut fixture = Fixture::<BenchPoller>::new(rt.alloc())?;
    let handler = Asks {
        errand: Errand::Insert(2),
        answer: Err(6),
    };
    let mut source = Generic::new(FILE, Interest::READ, Mode::OneShot, handler);
    follow(&rt, &mut fixture, &mut source, OWN_FAULT)
}
