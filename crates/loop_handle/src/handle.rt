// What the user's calls reach.
use list::{Idles, Lifecycle, SourceList};
use post_action::PostAction;
use sys::Poll;
use token::Error;

pub struct LoopHandle<P, C, S> {
    pub registry: Registry<P, C>,
    pub sources: SourceList<S>,
    pub idles: Idles,
    // what was asked for the source whose event is being handled
    pub pending_action: PostAction,
}

// What a registration enters.
#[derive(Drop)]
pub struct Registry<P, C> {
    pub poll: Poll<P, C>,
    pub lifecycle: Lifecycle,
}

// A source that could not be inserted, handed back.
pub struct InsertError<S> {
    pub inserted: S,
    pub error: Error,
}
