// How much memory a loop reserves when it is made, and that no other call of it allocates.
use crate::calls::{Call, Came, FAILED, Kind, Row};
use crate::fixture::{Fixture, Source};
use event_loop::{Line, Verdict};
use kinds::Errand;
use list::{Idle, Slot};
use poller::{Event, Step};
use std::alloc::{AllocError, Global};
use std::mem::size_of;
use std::process::Abort;
use std::test::Fail;
use sys::{Class, PollEvent, Setting};
use timer_wheel::TimeoutData;
use token::Token;

#[test]
fn bytes_of_a_loop(rt: HostRuntime) -> Result<(), Fail> {
    let calls = 128 * size_of::<Token>() + 64 * size_of::<Idle>() + 8 * size_of::<Errand>();
    let events = 640 * size_of::<PollEvent>() + 640 * size_of::<Line>() + 256 * size_of::<Event>();
    let tables = 256 * size_of::<levels::Line>() + 256 * size_of::<TimeoutData>();
    assert_eq!(rt; (calls, events, tables), (1_632, 27_136, 10_240));
    assert_eq!(rt; (size_of::<Source>(), size_of::<Slot<Source>>()), (40, 56));
    Ok(())
}

// Each call but dispatch, accepted and refused, and each list but the idles' until it is full.
const CALLS: &[Row] = &[
    (Call::Insert(Kind::Doorbell, 7), Came::Token(0, 0)),
    (Call::Insert(Kind::Timer, 50), Came::Token(1, 0)),
    (Call::Insert(Kind::Level, 8), Came::Token(2, 0)),
    (Call::Insert(Kind::Level, 8), Came::No(11)),
    (Call::Again, Came::No(11)),
    (Call::Enable(3, 0), Came::No(1)),
    (Call::Enable(2, 0), Came::No(3)),
    (Call::Update(2, 0), Came::Accepted),
    (Call::Disable(2, 0), Came::Accepted),
    (Call::Update(2, 0), Came::No(12)),
    (Call::Disable(2, 0), Came::No(12)),
    (Call::Enable(2, 0), Came::Accepted),
    (Call::Remove(2, 0), Came::Left(true)),
    (Call::Remove(2, 0), Came::Left(false)),
    (Call::Idle(9), Came::Ticket(0)),
    (Call::Fill(Kind::Doorbell, 1_000), Came::Fitted(127, 18)),
    (Call::Fill(Kind::Level, 2_000), Came::Fitted(128, 20)),
    (Call::Fill(Kind::Timer, 1_000), Came::Fitted(255, 16)),
];

// Dispatches: the doorbell's file, the event of its hook, a file that cannot be armed again, and a timer after an
// interrupted wait.
fn settings(heap: Global) -> Result<[Setting; 4], AllocError> {
    let rings = vec![in heap; 7]?;
    let again = vec![in heap; 7]?;
    let unarmed = vec![in heap; Step::Work, Step::Fail(4)]?;
    let interrupted = vec![in heap; Step::Interrupt]?;
    Ok([
        setting(0, Some(rings), None),
        setting(0, None, None),
        setting(0, Some(again), Some(unarmed)),
        setting(50, None, Some(interrupted)),
    ])
}

fn setting(time: u64, ready: Option<Vec<u32>>, plan: Option<Vec<Step>>) -> Setting {
    Setting { time, ready, plan }
}

const DISPATCHES: [Came; 4] = [
    Came::Event(Class::Polled, 0, 0, Verdict::Delivered),
    Came::Event(Class::Synthetic, 0, 0, Verdict::Delivered),
    FAILED,
    Came::Event(Class::Timer, 1, 0, Verdict::Delivered),
];

fn make_each_call(
    rt: &impl Abort,
    fixture: &mut Fixture,
    settings: &mut [Setting],
) -> Result<(), Fail> {
    fixture.follow(rt, CALLS)?;
    for (setting, came) in settings.iter_mut().zip(DISPATCHES) {
        assert_eq!(rt; fixture.dispatch_in(setting)?, came);
    }
    Ok(())
}

// What the test allocates itself it allocates before the loop is made, but for one vector after the last call. So
// where the first allocation that is refused after the making is that of this vector, no call made one.
// `tools/no_allocation` lets each allocation fail in turn and reads which of the messages comes.
#[test]
fn only_the_making_allocates(rt: HostRuntime) -> Result<(), Fail> {
    let heap = rt.alloc();
    let mut settings = settings(heap)?;
    let mut fixture = Fixture::new(heap)?;
    let answer = make_each_call(&rt, &mut fixture, &mut settings);
    fixture.end();
    answer?;
    match Vec::<u8>::with_capacity(heap, 1) {
        Ok(_) => Ok(()),
        Err(_) => Err("refused after the last call")?,
    }
}
