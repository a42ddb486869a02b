// A source with a timer: its calls from the first registration on.
use crate::calls::{CONTINUES, Call, Came, DONE, Row, follow};
use crate::fixture::{Fixture, token};
use crate::handlers::Rings;
use kinds::Errand;
use poller::{BenchPoller, Poller};
use post_action::PostAction;
use std::test::Fail;
use sys::{Poll, SetClock};
use timer::{TimeoutAction, Timer};
use token::Error;

pub fn timer(deadline: u64, next: TimeoutAction) -> Timer<Rings> {
    Timer::from_deadline(deadline, Rings { next })
}

const FULL: Came = Came::Answer(Err(Error::TimersFull));

const GOES_ON: Result<PostAction, Error> = Ok(PostAction::Continue);

const ENDS: Result<PostAction, Error> = Ok(PostAction::Remove);

// Of a timer with the deadline 50, which follows it by 70 and by none. Its handler asks for an idle with the deadline's number.
pub const TIMER: &[Row] = &[
    (Call::Register, DONE),
    (Call::At(49), Came::Quiet),
    (Call::At(50), Came::Rung(0)),
    (
        Call::Process(0),
        Came::Processed(GOES_ON, Some(Errand::Idle(50))),
    ),
    (Call::At(69), Came::Quiet),
    (Call::At(70), Came::Rung(0)),
    (
        Call::Process(0),
        Came::Processed(ENDS, Some(Errand::Idle(70))),
    ),
    (Call::At(1000), Came::Quiet),
    // registered anew it rings again, under another token
    (Call::Reregister, DONE),
    (Call::At(1000), Came::Rung(1)),
    (Call::Process(0), CONTINUES),
    (Call::Reregister, DONE),
    (Call::Unregister, DONE),
    (Call::At(1000), Came::Quiet),
    (Call::Unregister, DONE),
    (Call::Register, DONE),
    (Call::LetGo, DONE),
    (Call::At(1000), Came::Quiet),
];

// A duration counts from the clock.
const DURATION: &[Row] = &[
    (Call::Register, DONE),
    (Call::At(7), Came::Rung(0)),
    (
        Call::Process(0),
        Came::Processed(GOES_ON, Some(Errand::Idle(5))),
    ),
    (Call::At(16), Came::Quiet),
    (Call::At(17), Came::Rung(0)),
];

// The last time is a deadline still.
const LAST_TIME: &[Row] = &[
    (Call::Register, DONE),
    (Call::At(7), Came::Rung(0)),
    (
        Call::Process(0),
        Came::Processed(GOES_ON, Some(Errand::Idle(5))),
    ),
    (Call::At(u64::MAX - 1), Came::Quiet),
    (Call::At(u64::MAX), Came::Rung(0)),
];

// Past it there is no deadline any more, and a registration enters nothing.
const PAST_THE_LAST_TIME: &[Row] = &[
    (Call::Register, DONE),
    (Call::At(7), Came::Rung(0)),
    (
        Call::Process(0),
        Came::Processed(ENDS, Some(Errand::Idle(5))),
    ),
    (Call::Reregister, DONE),
    (Call::At(u64::MAX), Came::Quiet),
];

#[test]
fn durations(rt: HostRuntime) -> Result<(), Fail> {
    for (duration, table) in [
        (10, DURATION),
        (u64::MAX - 7, LAST_TIME),
        (u64::MAX - 6, PAST_THE_LAST_TIME),
    ] {
        let mut fixture = Fixture::<BenchPoller>::new(rt.alloc())?;
        let mut source = timer(5, TimeoutAction::ToDuration(duration));
        follow(&rt, &mut fixture, &mut source, table)?;
    }
    Ok(())
}

// Enters that many timers of others.
fn fill<P: Poller>(poll: &mut Poll<P, SetClock>, count: u32) -> Result<(), Error> {
    for _ in 0..count {
        poll.insert_timer(900, token(9))?;
    }
    Ok(())
}

const IN_A_FULL_WHEEL: &[Row] = &[(Call::Register, FULL), (Call::Unregister, DONE)];

const IN_THE_LAST_PLACE: &[Row] = &[(Call::Register, DONE), (Call::At(7), Came::Rung(1))];

// Its place was taken when it rang: it keeps its deadline.
const WITHOUT_A_PLACE: &[Row] = &[(
    Call::Process(1),
    Came::Processed(Err(Error::TimersFull), Some(Errand::Idle(5))),
)];

const WITH_A_PLACE_AGAIN: &[Row] = &[(Call::Reregister, DONE), (Call::At(5), Came::Rung(2))];

#[test]
fn full_wheel_refuses(rt: HostRuntime) -> Result<(), Fail> {
    let mut fixture = Fixture::<BenchPoller>::new(rt.alloc())?;
    let mut source = timer(5, TimeoutAction::ToInstant(8));
    fill(&mut fixture.poll, 256)?;
    follow(&rt, &mut fixture, &mut source, IN_A_FULL_WHEEL)?;
    fixture.poll.cancel_timer(0);
    follow(&rt, &mut fixture, &mut source, IN_THE_LAST_PLACE)?;
    fill(&mut fixture.poll, 1)?;
    follow(&rt, &mut fixture, &mut source, WITHOUT_A_PLACE)?;
    fixture.poll.cancel_timer(1);
    follow(&rt, &mut fixture, &mut source, WITH_A_PLACE_AGAIN)
}
