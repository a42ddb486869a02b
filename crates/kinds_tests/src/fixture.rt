// What each test begins with: a polling system over one of the pollers, a factory and a list of errands.
ghost use Rattle.std.specs.Prelude.{◌≡◌};
ghost use Rattle.poller.specs.Line.{LinesSet, line_of};

use crate::calls::{Call, Came};
use kinds::{Errand, Errands, EventIterator, EventSource, Reply};
use poller::{BenchPoller, LinePoller, Poller, Readiness, Step};
use std::alloc::{AllocError, Global};
use std::test::Fail;
use sys::{Class, Environment, Poll, PollEvent, PollEvents, SetClock, Setting};
use token::{Token, TokenFactory};

// The file of the sources.
pub const FILE: u32 = 3;

// A poller of the tests, and what is done to it between two calls.
pub trait Board: Poller + Drop {
    type Change: Environment<Self, SetClock> + Drop;

    fn start(heap: Global) -> Result<Self, AllocError>;

    // The file of the sources alone is ready, or none is.
    fn change(heap: Global, ready: bool, time: u64) -> Result<Self::Change, AllocError>;
}

impl Board for BenchPoller {
    type Change = Setting;

    fn start(heap: Global) -> Result<BenchPoller, AllocError> {
        BenchPoller::new(heap)
    }

    fn change(heap: Global, ready: bool, time: u64) -> Result<Setting, AllocError> {
        let files: &[u32] = if ready { &[FILE] } else { &[] };
        let ready = Some(files.to_vec(heap)?);
        Ok(Setting {
            time,
            ready,
            plan: None,
        })
    }
}

// The lines that the firmware sets, at that time.
#[derive(Clone, Copy)]
pub struct Lines {
    lines: u64,
    time: u64,
}

impl Environment<LinePoller, SetClock> for Lines {
    ghost arranges = { λ l p c l' p' c'. LinesSet (line_of p) l.lines (line_of p') × (c'.time ≡ l.time) };

    fn arrange(&mut self, poller: &mut LinePoller, clock: &mut SetClock) {
        poller.set_lines(self.lines);
        clock.time = self.time;
    }
}

impl Board for LinePoller {
    type Change = Lines;

    fn start(heap: Global) -> Result<LinePoller, AllocError> {
        LinePoller::new(heap)
    }

    fn change(_heap: Global, ready: bool, time: u64) -> Result<Lines, AllocError> {
        let lines = if ready { 1 << FILE } else { 0 };
        Ok(Lines { lines, time })
    }
}

// The token that the factory of a fixture draws as that one.
pub fn token(sub_id: u16) -> Token {
    Token {
        id: 7,
        version: 2,
        sub_id,
    }
}

// The token's sub-id, where it was drawn by the factory of a fixture.
fn sub_id(readiness: Readiness, found: Token) -> Result<u16, &'static str> {
    if readiness != Readiness::READ || found != token(found.sub_id) {
        return Err("an event of another source");
    }
    Ok(found.sub_id)
}

fn event_of(event: PollEvent) -> Result<Came, &'static str> {
    let sub_id = sub_id(event.readiness, event.token)?;
    match event.class {
        Class::Polled => Ok(Came::Polled(sub_id)),
        Class::Timer => Ok(Came::Rung(sub_id)),
        Class::Synthetic => Err("a synthetic event of a wait"),
    }
}

// What the source answers before a wait.
fn sleep<S: EventSource>(source: &mut S) -> Result<Came, &'static str> {
    match source.before_sleep() {
        Ok(None) => Ok(Came::Asleep),
        Ok(Some((readiness, token))) => Ok(Came::Woken(sub_id(readiness, token)?)),
        Err(error) => Ok(Came::Answer(Err(error))),
    }
}

#[derive(Drop)]
pub struct Fixture<P> {
    pub heap: Global,
    pub poll: Poll<P, SetClock>,
    pub factory: TokenFactory,
    pub errands: Errands,
    pub events: PollEvents,
    pub time: u64,
}

impl<P: Board> Fixture<P> {
    pub fn new(heap: Global) -> Result<Fixture<P>, AllocError> {
        let poller = P::start(heap)?;
        let poll = Poll::new(heap, poller, SetClock { time: 0 })?;
        let errands = Errands::new(heap)?;
        let events = PollEvents::new(heap)?;
        Ok(Fixture {
            heap,
            poll,
            factory: TokenFactory::new(token(0)),
            errands,
            events,
            time: 0,
        })
    }

    // The file of the sources alone is ready, or none is.
    pub fn arrange(&mut self, ready: bool) -> Result<(), AllocError> {
        let mut change = P::change(self.heap, ready, self.time)?;
        self.poll.arrange(&mut change);
        Ok(())
    }

    // A wait that brings one event at most.
    fn wait(&mut self, ready: bool) -> Result<Came, Fail> {
        self.arrange(ready)?;
        if let Err(error) = self.poll.poll(None, &mut self.events) {
            return Ok(Came::Answer(Err(error)));
        }
        match self.events.items.as_slice() {
            [] => Ok(Came::Quiet),
            [event] => Ok(event_of(*event)?),
            _ => Err("more than one event")?,
        }
    }

    // The first errand that is asked for comes with the answer.
    fn process<S: EventSource>(&mut self, source: &mut S, sub_id: u16) -> Came {
        self.errands.clear();
        let answer = source.process_events(
            &mut self.poll,
            Readiness::READ,
            token(sub_id),
            &mut self.errands,
        );
        Came::Processed(answer, self.errands.as_slice().first().copied())
    }

    // One call, and what it comes to.
    pub fn call<S: EventSource>(&mut self, source: &mut S, call: Call) -> Result<Came, Fail> {
        let poll = &mut self.poll;
        match call {
            Call::Register => Ok(Came::Answer(source.register(poll, &mut self.factory))),
            Call::Reregister => Ok(Came::Answer(source.reregister(poll, &mut self.factory))),
            Call::Unregister => Ok(Came::Answer(source.unregister(poll))),
            Call::LetGo => {
                source.let_go(poll);
                Ok(Came::Answer(Ok(())))
            }
            Call::Ready => self.wait(true),
            Call::At(time) => {
                self.time = time;
                self.wait(false)
            }
            Call::Process(sub_id) => Ok(self.process(source, sub_id)),
            Call::Sleep => Ok(sleep(source)?),
            Call::Tell => {
                source.told(Errand::Idle(5), Ok(Reply::Ticket(0)));
                source.before_handle_events(EventIterator::new(
                    token(0),
                    self.events.items.as_slice(),
                ));
                Ok(Came::Answer(Ok(())))
            }
        }
    }
}

impl Fixture<BenchPoller> {
    // What the poller's next calls come to.
    pub fn plan(&mut self, steps: &[Step]) -> Result<(), AllocError> {
        let plan = Some(steps.to_vec(self.heap)?);
        self.poll.arrange(&mut Setting {
            time: self.time,
            ready: None,
            plan,
        });
        Ok(())
    }
}
