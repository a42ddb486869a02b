// A source that can be inserted again and again, a copy each time.
ghost use Rattle.std.specs.Prelude.{◌≡◌};

use crate::source::EventSource;

// A trait of its own: where a source is called nothing may copy it, so that no call of it is made on a copy in its place.
pub trait Spare: EventSource {
    // A copy takes no memory, so this is not `Clone`, which may reserve some; nor `Copy`, since a kind that shares
    // memory has an equal copy too.
    fn copy(&self) -> Self
        ensures { result ≡ self.now };
}
