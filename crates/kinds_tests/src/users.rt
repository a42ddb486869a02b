// The user of any source, with each kind over both pollers.
use crate::calls::{Call, Came, EXISTS, Row, follow};
use crate::fixture::{Board, Fixture, token};
use crate::{files, register_and_give_up, register_wait_and_give_up, timers};
use kinds::EventSource;
use poller::{BenchPoller, Interest, LinePoller, Mode, Step};
use std::alloc::Global;
use std::process::Abort;
use std::test::Fail;
use timer::TimeoutAction;
use token::Error;

// The file of another source.
const OTHER: u32 = 4;

fn use_once<S: EventSource, P: Board>(source: &mut S, fixture: &mut Fixture<P>) {
    register_wait_and_give_up(
        source,
        &mut fixture.poll,
        &mut fixture.factory,
        None,
        &mut fixture.events,
    );
}

// Another source's timer that was not due stands still.
const OTHERS_STAY: &[Row] = &[
    (Call::Ready, Came::Quiet),
    (Call::At(199), Came::Quiet),
    (Call::At(200), Came::Rung(92)),
];

// The source's event is lost, and what others have entered stays: an entry, and a timer that is not due.
fn leaves_nothing<S: EventSource + Drop, P: Board>(
    rt: &impl Abort,
    mut fixture: Fixture<P>,
    mut source: S,
) -> Result<(), Fail> {
    fixture
        .poll
        .register(OTHER, Interest::READ, Mode::OneShot, token(90))?;
    fixture.poll.insert_timer(0, token(91))?;
    fixture.poll.insert_timer(200, token(92))?;
    fixture.time = 100;
    fixture.arrange(true)?;
    use_once(&mut source, &mut fixture);
    assert_eq!(rt; fixture.events.items.len(), 0);
    register_and_give_up(&mut source, &mut fixture.poll, &mut fixture.factory);
    follow(rt, &mut fixture, &mut source, OTHERS_STAY)?;
    let stands = fixture
        .poll
        .register(OTHER, Interest::READ, Mode::OneShot, token(93));
    assert_eq!(rt; stands, Err(Error::Exists));
    Ok(())
}

fn each_kind<P: Board>(rt: &impl Abort, heap: Global) -> Result<(), Fail> {
    let timer = timers::timer(50, TimeoutAction::Drop);
    leaves_nothing(rt, Fixture::<P>::new(heap)?, files::generic(Mode::OneShot))?;
    leaves_nothing(rt, Fixture::<P>::new(heap)?, files::doorbell())?;
    leaves_nothing(rt, Fixture::<P>::new(heap)?, files::left(Mode::Level))?;
    leaves_nothing(rt, Fixture::<P>::new(heap)?, timer)
}

#[test]
fn leaves_nothing_over_the_bench(rt: HostRuntime) -> Result<(), Fail> {
    each_kind::<BenchPoller>(&rt, rt.alloc())
}

#[test]
fn leaves_nothing_over_the_lines(rt: HostRuntime) -> Result<(), Fail> {
    each_kind::<LinePoller>(&rt, rt.alloc())
}

// Where one of the two deletes works nothing is left.
const ONE_WORKS: &[Step] = &[Step::Work, Step::Work, Step::Fail(4), Step::Work];

const NOTHING: &[Row] = &[(Call::Ready, Came::Quiet)];

// Where both fail a stuck entry is.
const NONE_WORKS: &[Step] = &[Step::Work, Step::Work, Step::Fail(4), Step::Fail(5)];

const A_STUCK_ENTRY: &[Row] = &[(Call::Ready, Came::Polled(0)), (Call::Register, EXISTS)];

fn is_left<S: EventSource + Drop>(
    rt: &impl Abort,
    heap: Global,
    mut source: S,
    steps: &[Step],
    table: &[Row],
) -> Result<(), Fail> {
    let mut fixture = Fixture::<BenchPoller>::new(heap)?;
    fixture.plan(steps)?;
    use_once(&mut source, &mut fixture);
    follow(rt, &mut fixture, &mut source, table)
}

#[test]
fn only_a_stuck_entry_is_left(rt: HostRuntime) -> Result<(), Fail> {
    let heap = rt.alloc();
    is_left(&rt, heap, files::generic(Mode::OneShot), ONE_WORKS, NOTHING)?;
    is_left(&rt, heap, files::doorbell(), ONE_WORKS, NOTHING)?;
    is_left(
        &rt,
        heap,
        files::generic(Mode::OneShot),
        NONE_WORKS,
        A_STUCK_ENTRY,
    )?;
    is_left(&rt, heap, files::doorbell(), NONE_WORKS, A_STUCK_ENTRY)
}
