// Each kind, and a sum of two, over both pollers.
use crate::calls::{Call, Came, NOT_FOUND, Row, follow};
use crate::fixture::{Board, Fixture};
use crate::handlers::Asks;
use crate::{files, timers};
use doorbell::Doorbell;
use either::Either;
use generic::Generic;
use kinds::{Errand, EventSource, Spare};
use poller::{BenchPoller, Interest, LinePoller, Mode};
use post_action::PostAction;
use std::alloc::Global;
use std::process::Abort;
use std::test::Fail;
use timer::TimeoutAction;
use token::Error;

fn check<S: EventSource + Drop, P: Board>(
    rt: &impl Abort,
    mut fixture: Fixture<P>,
    mut source: S,
    table: &[Row],
) -> Result<(), Fail> {
    follow(rt, &mut fixture, &mut source, table)?;
    source.end();
    Ok(())
}

fn check_files<P: Board>(rt: &impl Abort, heap: Global) -> Result<(), Fail> {
    let one_shot = Mode::OneShot;
    check(
        rt,
        Fixture::<P>::new(heap)?,
        files::generic(one_shot),
        files::GENERIC,
    )?;
    check(
        rt,
        Fixture::<P>::new(heap)?,
        files::left(one_shot),
        files::GENERIC,
    )?;
    check(
        rt,
        Fixture::<P>::new(heap)?,
        files::generic(Mode::Level),
        files::LEVEL,
    )?;
    check(
        rt,
        Fixture::<P>::new(heap)?,
        files::doorbell(),
        files::DOORBELL,
    )?;
    check(
        rt,
        Fixture::<P>::new(heap)?,
        files::right(),
        files::DOORBELL,
    )
}

fn check_timers<P: Board>(rt: &impl Abort, heap: Global) -> Result<(), Fail> {
    let timer = timers::timer(50, TimeoutAction::ToInstant(70));
    let sum: Either<Doorbell, _> = Either::Right(timer.copy());
    check(rt, Fixture::<P>::new(heap)?, timer, timers::TIMER)?;
    check(rt, Fixture::<P>::new(heap)?, sum, timers::TIMER)
}

#[test]
fn over_the_bench(rt: HostRuntime) -> Result<(), Fail> {
    check_files::<BenchPoller>(&rt, rt.alloc())?;
    check_timers::<BenchPoller>(&rt, rt.alloc())
}

#[test]
fn over_the_lines(rt: HostRuntime) -> Result<(), Fail> {
    check_files::<LinePoller>(&rt, rt.alloc())?;
    check_timers::<LinePoller>(&rt, rt.alloc())
}

// No line has that file.
const REFUSED: &[Row] = &[
    (Call::Register, Came::Answer(Err(Error::PollerFailed(9)))),
    (Call::Unregister, NOT_FOUND),
];

#[test]
fn file_64_is_refused(rt: HostRuntime) -> Result<(), Fail> {
    let heap = rt.alloc();
    let handler = Asks {
        errand: Errand::Idle(0),
        answer: Ok(PostAction::Continue),
    };
    let generic = Generic::new(64, Interest::READ, Mode::OneShot, handler);
    let sum: Either<_, Doorbell> = Either::Left(generic.copy());
    check(&rt, Fixture::<LinePoller>::new(heap)?, generic, REFUSED)?;
    check(
        &rt,
        Fixture::<LinePoller>::new(heap)?,
        Doorbell::new(64),
        REFUSED,
    )?;
    check(&rt, Fixture::<LinePoller>::new(heap)?, sum, REFUSED)
}

// Where level mode is emulated Edge is refused before the poller is asked.
const NO_EDGE: &[Row] = &[
    (Call::Register, Came::Answer(Err(Error::NoEdge))),
    (Call::Unregister, NOT_FOUND),
];

#[test]
fn edge_is_refused(rt: HostRuntime) -> Result<(), Fail> {
    let source = files::generic(Mode::Edge);
    check(
        &rt,
        Fixture::<BenchPoller>::new(rt.alloc())?,
        source,
        NO_EDGE,
    )
}

#[test]
fn only_doorbells_want_hooks(rt: HostRuntime) {
    let timer = timers::timer(50, TimeoutAction::Drop);
    assert!(rt; !files::generic(Mode::Level).copy().needs_hooks());
    assert!(rt; !files::left(Mode::Level).copy().needs_hooks());
    assert!(rt; !timer.copy().needs_hooks());
    assert!(rt; files::doorbell().copy().needs_hooks());
    assert!(rt; files::right().copy().needs_hooks());
}
