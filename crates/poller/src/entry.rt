// What stands in a poller, what it is asked for, and what it reports.
ghost use Rattle.std.specs.Prelude.{◌≡◌, false, Some};
ghost use Rattle.poller.specs.Register.{fresh};
ghost use Rattle.poller.specs.Reports.{ripe};

// Whether an entry reports once, as long as its file is ready, or when its file becomes ready.
#[derive(Clone, Copy, PartialEq, Eq, Debug)]
pub enum Mode {
    OneShot,
    Level,
    Edge,
}

// The sides of a file that an entry wants.
// Readiness (what a source is told) and Event (what is reported) have calloop's fields too: three meanings, so no one struct.
#[derive(Clone, Copy, PartialEq, Eq, Debug)]
pub struct Interest {
    pub readable: bool,
    pub writable: bool,
}

impl Interest {
    pub const READ: Interest = Interest {
        readable: true,
        writable: false,
    };
}

// What a source is told of its file.
#[derive(Clone, Copy, PartialEq, Eq, Debug)]
pub struct Readiness {
    pub readable: bool,
    pub writable: bool,
    pub error: bool,
}

impl Readiness {
    pub const READ: Readiness = Readiness {
        readable: true,
        writable: false,
        error: false,
    };
}

// What add and modify are asked for.
#[derive(Clone, Copy, PartialEq, Eq, Debug)]
pub struct Request {
    pub file: u32,
    pub key: u64,
    pub interest: Interest,
    pub mode: Mode,
}

#[derive(Clone, Copy, PartialEq, Eq, Debug)]
pub struct Entry {
    pub file: u32,
    pub key: u64,
    pub interest: Interest,
    pub mode: Mode,
    // whether a wait may report it
    pub armed: bool,
    // whether a delete of it has failed
    pub stuck: bool,
}

impl From<Request> for Entry {
    ghost from_gives = { λ q e. e ≡ fresh q };

    // A newcomer is armed and not stuck.
    fn from(request: Request) -> Entry {
        Entry {
            file: request.file,
            key: request.key,
            interest: request.interest,
            mode: request.mode,
            armed: true,
            stuck: false,
        }
    }
}

impl Entry {
    // Whether a wait may report it as readable.
    pub(crate) fn is_ripe(&self) -> bool
        ensures { result ≡ ripe (Some self.now) }
    {
        self.armed && self.interest.readable
    }
}

#[derive(Clone, Copy, PartialEq, Eq, Debug)]
pub struct Event {
    pub key: u64,
    pub readable: bool,
    pub writable: bool,
}

impl From<Event> for Readiness {
    ghost from_gives = { λ v r. r ≡ record { readable = v.readable; writable = v.writable; error = false } };

    fn from(event: Event) -> Readiness {
        Readiness {
            readable: event.readable,
            writable: event.writable,
            error: false,
        }
    }
}
