// What became of each event of a dispatch.
#![tactic(auto)]

ghost use Rattle.std.specs.Prelude.{◌≡◌, Some};
ghost use Rattle.sheet.specs.Printed.{line_of, line_text, verdict_letter};

use bounded::Bounded;
use std::fmt;
use sys::{Class, PollEvent};

#[derive(Clone, Copy, PartialEq, Eq, Debug)]
pub enum Verdict {
    // its source was called
    Delivered,
    // its token fitted no slot
    Stale,
    // the dispatch stopped before its turn
    Lost,
}

impl Verdict {
    pub fn letter(self) -> &'static str
        ensures { result.now ≡ verdict_letter self }
    {
        match self {
            Verdict::Delivered => "d",
            Verdict::Stale => "s",
            Verdict::Lost => "l",
        }
    }
}

impl fmt::Display for Verdict {
    ghost output = { λ v. Some (verdict_letter v) };

    fn fmt<W: fmt::Write>(&self, f: &mut fmt::Formatter<W>) -> fmt::Result {
        f.write_str(self.letter())
    }
}

#[derive(Clone, Copy, PartialEq, Eq, Debug)]
pub struct Line {
    pub class: Class,
    pub key: u64,
    pub verdict: Verdict,
}

impl Line {
    pub fn new(event: PollEvent, verdict: Verdict) -> Line
        ensures { result ≡ line_of verdict event }
    {
        Line {
            class: event.class,
            key: u64::from(event.token),
            verdict,
        }
    }
}

impl fmt::Display for Line {
    ghost output = { λ l. Some (line_text l) };

    fn fmt<W: fmt::Write>(&self, f: &mut fmt::Formatter<W>) -> fmt::Result {
        write!(f, "({} {} {})", self.class, self.key, self.verdict)
    }
}

// At most 128 synthetic events, 256 of the poller and 256 timers.
pub type Sheet = Bounded<Line, 640>;
