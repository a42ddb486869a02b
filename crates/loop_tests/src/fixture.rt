// What each test begins with: a loop over the bench poller.
use crate::calls::{Call, Came, Kind, Row};
use crate::handlers::{Leaves, Stays};
use doorbell::Doorbell;
use event_loop::{EventLoop, InsertError, Line};
use generic::Generic;
use kinds::Either;
use poller::{BenchPoller, Interest, Mode, Step};
use std::alloc::{AllocError, Global};
use std::process::Abort;
use std::test::Fail;
use sys::{Class, SetClock, Setting};
use timer::Timer;
use token::{Error, Token};

pub type Source = Either<Timer<Leaves>, Either<Generic<Stays>, Doorbell>>;

fn generic(file: u32, mode: Mode) -> Source {
    Either::Right(Either::Left(Generic::new(file, Interest::READ, mode, Stays)))
}

pub fn source(kind: Kind, number: u32) -> Source {
    match kind {
        Kind::Timer => Either::Left(Timer::from_deadline(u64::from(number), Leaves)),
        Kind::OneShot => generic(number, Mode::OneShot),
        Kind::Level => generic(number, Mode::Level),
        Kind::Edge => generic(number, Mode::Edge),
        Kind::Doorbell => Either::Right(Either::Right(Doorbell::new(number))),
    }
}

fn refused(error: Error) -> Came {
    match error.code() {
        None => Came::No(error.number()),
        Some(code) => Came::Fault(error.number(), code),
    }
}

fn accepted(answer: Result<(), Error>) -> Came {
    match answer {
        Ok(()) => Came::Accepted,
        Err(error) => refused(error),
    }
}

// Each registration draws the sub-id 0, and that of a Doorbell 1 besides, for the events of its hook.
fn event(line: Line) -> Result<Came, &'static str> {
    let token = Token::from(line.key);
    let drawn = if line.class == Class::Synthetic { 1 } else { 0 };
    if token.sub_id != drawn {
        return Err("a token that no registration drew");
    }
    Ok(Came::Event(line.class, token.id, token.version, line.verdict))
}

// The calls look at id and version alone.
fn token(id: u32, version: u16) -> Token {
    Token {
        id,
        version,
        sub_id: 9,
    }
}

pub struct Fixture {
    heap: Global,
    event_loop: EventLoop<BenchPoller, SetClock, Source>,
    // the source that was handed back last
    back: Option<Source>,
}

impl Fixture {
    pub fn new(heap: Global) -> Result<Fixture, AllocError> {
        let poller = BenchPoller::new(heap)?;
        let event_loop = EventLoop::new(heap, poller, SetClock { time: 0 })?;
        Ok(Fixture {
            heap,
            event_loop,
            back: None,
        })
    }

    pub fn end(self) {
        let Fixture {
            heap: _,
            event_loop,
            back: _,
        } = self;
        event_loop.end();
    }

    fn insert(&mut self, source: Source) -> Came {
        match self.event_loop.insert(source) {
            Ok(token) => Came::Token(token.id, token.version),
            Err(InsertError { inserted, error }) => {
                self.back = Some(inserted);
                refused(error)
            }
        }
    }

    fn again(&mut self) -> Result<Came, Fail> {
        match self.back.take() {
            Some(source) => Ok(self.insert(source)),
            None => Err("no source was handed back")?,
        }
    }

    fn fill(&mut self, kind: Kind, first: u32) -> Result<Came, Fail> {
        for count in 0..1_024u32 {
            match self.insert(source(kind, first.wrapping_add(count))) {
                Came::Token(_, _) => {}
                Came::No(number) => return Ok(Came::Fitted(count, number)),
                _ => Err("a fault of the poller")?,
            }
        }
        Err("no insert was refused")?
    }

    fn arrange(
        &mut self,
        time: u64,
        files: &[u32],
        plan: Option<Vec<Step>>,
    ) -> Result<(), AllocError> {
        let ready = Some(files.to_vec(self.heap)?);
        self.event_loop.arrange(&mut Setting { time, ready, plan });
        Ok(())
    }

    // A dispatch that brings one event at most.
    fn dispatch(&mut self, time: u64, files: &[u32]) -> Result<Came, Fail> {
        self.arrange(time, files, None)?;
        self.dispatch_as_set()
    }

    // The same in a setting that was made before.
    pub fn dispatch_in(&mut self, setting: &mut Setting) -> Result<Came, Fail> {
        self.event_loop.arrange(setting);
        self.dispatch_as_set()
    }

    fn dispatch_as_set(&mut self) -> Result<Came, Fail> {
        if let Err(error) = self.event_loop.dispatch(None) {
            return Ok(refused(error));
        }
        match self.event_loop.sheet.items.as_slice() {
            [] => Ok(Came::Quiet),
            [line] => Ok(event(*line)?),
            _ => Err("more than one event")?,
        }
    }

    // One call, and what it comes to.
    fn call(&mut self, call: Call) -> Result<Came, Fail> {
        let event_loop = &mut self.event_loop;
        match call {
            Call::Insert(kind, number) => Ok(self.insert(source(kind, number))),
            Call::Again => self.again(),
            Call::Fill(kind, first) => self.fill(kind, first),
            Call::Enable(id, version) => Ok(accepted(event_loop.enable(token(id, version)))),
            Call::Update(id, version) => Ok(accepted(event_loop.update(token(id, version)))),
            Call::Disable(id, version) => Ok(accepted(event_loop.disable(token(id, version)))),
            Call::Remove(id, version) => Ok(Came::Left(event_loop.remove(token(id, version)))),
            Call::Idle(value) => match event_loop.idle(value) {
                Ok(ticket) => Ok(Came::Ticket(ticket)),
                Err(error) => Ok(refused(error)),
            },
            Call::Ready(file) => self.dispatch(0, &[file]),
            Call::At(time) => self.dispatch(time, &[]),
            Call::Fail(count) => {
                let plan = vec![in self.heap; Step::Fail(4); count]?;
                self.arrange(0, &[], Some(plan))?;
                Ok(Came::Accepted)
            }
        }
    }

    // Makes the calls, one after the other.
    pub fn follow(&mut self, rt: &impl Abort, table: &[Row]) -> Result<(), Fail> {
        for (step, (call, came)) in table.iter().enumerate() {
            assert_eq!(rt; self.call(*call)?, *came, "at step {step}, {call:?}");
        }
        Ok(())
    }
}

// Makes the calls of each table over a loop of its own.
pub fn follow_each(rt: &impl Abort, heap: Global, tables: &[&[Row]]) -> Result<(), Fail> {
    for table in tables {
        follow(rt, heap, table)?;
    }
    Ok(())
}

// Makes the calls over a new loop.
pub fn follow(rt: &impl Abort, heap: Global, table: &[Row]) -> Result<(), Fail> {
    let mut fixture = Fixture::new(heap)?;
    let answer = fixture.follow(rt, table);
    fixture.end();
    answer
}
