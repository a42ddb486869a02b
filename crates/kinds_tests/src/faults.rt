// The bench poller fails by its plan: what a source answers then, and what is left.
use crate::calls::{CONTINUES, Call, Came, DONE, EXISTS, FAILED, NOT_FOUND, Row, follow};
use crate::files::{self, HANDLED};
use crate::fixture::Fixture;
use kinds::{EventSource, Spare};
use poller::{BenchPoller, Mode, Step};
use std::alloc::Global;
use std::process::Abort;
use std::test::Fail;
use token::Error;

// EACH CALL OF THE POLLER FAILS IN TURN

// The calls of a source, and a wait after them.
const CALLS: [Call; 7] = [
    Call::Register,
    Call::Ready,
    Call::Reregister,
    Call::Unregister,
    Call::Register,
    Call::LetGo,
    Call::Ready,
];

type Answers = [Came; 7];

// The add of the first register failed: reregister and unregister do not ask the poller.
const NOT_ADDED: Answers = [
    FAILED,
    Came::Quiet,
    NOT_FOUND,
    NOT_FOUND,
    DONE,
    DONE,
    Came::Quiet,
];

// A source in one-shot mode asks for add, modify, delete, add and delete; the wait is the second call.
const ONE_SHOT: &[Answers] = &[
    NOT_ADDED,
    [DONE, FAILED, DONE, DONE, DONE, DONE, Came::Quiet],
    [DONE, Came::Polled(0), FAILED, DONE, DONE, DONE, Came::Quiet],
    [DONE, Came::Polled(0), DONE, FAILED, DONE, DONE, Came::Quiet],
    [DONE, Came::Polled(0), DONE, DONE, FAILED, DONE, Came::Quiet],
    [
        DONE,
        Came::Polled(0),
        DONE,
        DONE,
        DONE,
        DONE,
        Came::Polled(2),
    ],
];

// For one in level mode the wait asks for a modify more, by which it is armed again.
const LEVEL: &[Answers] = &[
    NOT_ADDED,
    [DONE, FAILED, DONE, DONE, DONE, DONE, Came::Quiet],
    [DONE, FAILED, DONE, DONE, DONE, DONE, Came::Quiet],
    [DONE, Came::Polled(0), FAILED, DONE, DONE, DONE, Came::Quiet],
    [DONE, Came::Polled(0), DONE, FAILED, DONE, DONE, Came::Quiet],
    [DONE, Came::Polled(0), DONE, DONE, FAILED, DONE, Came::Quiet],
    [
        DONE,
        Came::Polled(0),
        DONE,
        DONE,
        DONE,
        DONE,
        Came::Polled(4),
    ],
];

fn check_by_plan<S: EventSource + Drop>(
    rt: &impl Abort,
    heap: Global,
    mut source: S,
    steps: &[Step],
    row: &Answers,
) -> Result<(), Fail> {
    let mut fixture = Fixture::<BenchPoller>::new(heap)?;
    fixture.plan(steps)?;
    for (call, came) in CALLS.iter().zip(row) {
        assert_eq!(rt; fixture.call(&mut source, *call)?, *came, "by {steps:?}");
    }
    Ok(())
}

// By row n, from 0, the poller's call after n others fails.
fn fails_in_turn<S: Spare + Drop>(
    rt: &impl Abort,
    heap: Global,
    source: S,
    rows: &[Answers],
) -> Result<(), Fail> {
    for (works, row) in rows.iter().enumerate() {
        let mut steps = vec![in heap; Step::Work; works]?;
        steps.push(Step::Fail(4))?;
        check_by_plan(rt, heap, source.copy(), steps.as_slice(), row)?;
    }
    Ok(())
}

#[test]
fn each_call_fails_in_turn(rt: HostRuntime) -> Result<(), Fail> {
    let heap = rt.alloc();
    fails_in_turn(&rt, heap, files::generic(Mode::OneShot), ONE_SHOT)?;
    fails_in_turn(&rt, heap, files::left(Mode::OneShot), ONE_SHOT)?;
    fails_in_turn(&rt, heap, files::doorbell(), LEVEL)?;
    fails_in_turn(&rt, heap, files::right(), LEVEL)
}

// WHAT IS LEFT

// Nothing is held after a failed register, so an unregister does not ask the poller: the second fault meets the wait.
const REGISTER: &[Row] = &[
    (Call::Register, FAILED),
    (Call::Unregister, NOT_FOUND),
    (Call::Ready, Came::Answer(Err(Error::PollerFailed(5)))),
    (Call::Ready, Came::Quiet),
];

// A failed wait tells nothing and loses nothing.
const WAIT: &[Row] = &[
    (Call::Register, DONE),
    (Call::Ready, FAILED),
    (Call::Ready, Came::Answer(Err(Error::Interrupted))),
    (Call::Ready, Came::Polled(0)),
];

// After a failed delete at letting go the entry is stuck: it still reports, to nobody, and keeps all from the file.
const LET_GO: &[Row] = &[
    (Call::Register, DONE),
    (Call::LetGo, DONE),
    (Call::Unregister, NOT_FOUND),
    (Call::Ready, Came::Polled(0)),
    (Call::Process(0), CONTINUES),
    (Call::Sleep, Came::Asleep),
    (Call::Register, EXISTS),
    (Call::Unregister, NOT_FOUND),
];

// After a failed reregister the token before is the source's own still. Of an event under it `handled` comes, and `asleep` then.
fn reregister(handled: Came, asleep: Came) -> [Row; 7] {
    [
        (Call::Register, DONE),
        (Call::Reregister, FAILED),
        (Call::Ready, Came::Polled(0)),
        (Call::Process(2), CONTINUES),
        (Call::Sleep, Came::Asleep),
        (Call::Process(0), handled),
        (Call::Sleep, asleep),
    ]
}

// After a failed unregister too, and a second one gives the file up.
fn unregister(handled: Came, asleep: Came) -> [Row; 8] {
    [
        (Call::Register, DONE),
        (Call::Unregister, FAILED),
        (Call::Ready, Came::Polled(0)),
        (Call::Process(0), handled),
        (Call::Sleep, asleep),
        (Call::Unregister, DONE),
        (Call::Ready, Came::Quiet),
        (Call::Register, DONE),
    ]
}

fn follow_by_plan<S: EventSource + Drop>(
    rt: &impl Abort,
    heap: Global,
    mut source: S,
    steps: &[Step],
    table: &[Row],
) -> Result<(), Fail> {
    let mut fixture = Fixture::<BenchPoller>::new(heap)?;
    fixture.plan(steps)?;
    follow(rt, &mut fixture, &mut source, table)
}

fn each_fault<S: Spare + Drop>(
    rt: &impl Abort,
    heap: Global,
    source: S,
    handled: Came,
    asleep: Came,
) -> Result<(), Fail> {
    let reregister = reregister(handled, asleep);
    let unregister = unregister(handled, asleep);
    let second = [Step::Work, Step::Fail(4)];
    let plans: [(&[Step], &[Row]); 5] = [
        (&[Step::Fail(4), Step::Fail(5)], REGISTER),
        (&[Step::Work, Step::Fail(4), Step::Interrupt], WAIT),
        (&second, LET_GO),
        (&second, &reregister),
        (&second, &unregister),
    ];
    for (steps, table) in plans {
        follow_by_plan(rt, heap, source.copy(), steps, table)?;
    }
    Ok(())
}

#[test]
fn what_is_left(rt: HostRuntime) -> Result<(), Fail> {
    let heap = rt.alloc();
    each_fault(
        &rt,
        heap,
        files::generic(Mode::OneShot),
        HANDLED,
        Came::Asleep,
    )?;
    each_fault(&rt, heap, files::left(Mode::OneShot), HANDLED, Came::Asleep)?;
    each_fault(&rt, heap, files::doorbell(), CONTINUES, Came::Woken(1))?;
    each_fault(&rt, heap, files::right(), CONTINUES, Came::Woken(1))
}

// Where the wait cannot arm it again the source is not reported until it is registered anew.
const ARMING: &[Row] = &[
    (Call::Register, DONE),
    (Call::Ready, FAILED),
    (Call::Ready, Came::Quiet),
    (Call::Reregister, DONE),
    (Call::Ready, Came::Polled(2)),
];

#[test]
fn failed_arming(rt: HostRuntime) -> Result<(), Fail> {
    let steps = [Step::Work, Step::Work, Step::Fail(4)];
    follow_by_plan(&rt, rt.alloc(), files::doorbell(), &steps, ARMING)
}
