// The loop's type.
use bounded::Bounded;
use sheet::Sheet;
use sys::{PollEvent, PollEvents};
use turns::LoopInner;

pub struct EventLoop<P, C, S> {
    pub(crate) inner: LoopInner<P, C, S>,
    // the hooks' events that wait for a wait that succeeds
    pub(crate) synthetic_events: Bounded<PollEvent, 128>,
    pub(crate) events: PollEvents,
    pub sheet: Sheet,
}
