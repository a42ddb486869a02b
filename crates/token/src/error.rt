// Every refusal of the loop, by name.
ghost use Rattle.std.specs.Prelude.{◌≡◌};
ghost use Rattle.token.specs.Refusal.{number_of, code_of};

// No `Display`: a refusal is printed in one place alone, as its number, and the contracts need `number` anyway.
#[derive(Clone, Copy, PartialEq, Eq, Debug)]
pub enum Error {
    InvalidToken,
    Busy,
    AlreadyEnabled,
    NoSlot,
    IdleFull,
    NoSpare,
    BadForm,
    SubIdsSpent,
    ErrandsFull,
    SourceFailed(u32),
    Exists,
    NotFound,
    PollerFull,
    PollerFailed(u32),
    Interrupted,
    TimersFull,
    TimersSpent,
    LifecycleFull,
    SyntheticFull,
    LevelFull,
    NoEdge,
}

impl Error {
    // The number by which scripts and contracts tell a refusal.
    pub fn number(self) -> u8
        ensures { result ≡ number_of self }
    {
        match self {
            Error::InvalidToken => 1,
            Error::Busy => 2,
            Error::AlreadyEnabled => 3,
            Error::NoSlot => 4,
            Error::IdleFull => 5,
            Error::NoSpare => 6,
            Error::BadForm => 7,
            Error::SubIdsSpent => 8,
            Error::ErrandsFull => 9,
            Error::SourceFailed(_) => 10,
            Error::Exists => 11,
            Error::NotFound => 12,
            Error::PollerFull => 13,
            Error::PollerFailed(_) => 14,
            Error::Interrupted => 15,
            Error::TimersFull => 16,
            Error::TimersSpent => 17,
            Error::LifecycleFull => 18,
            Error::SyntheticFull => 19,
            Error::LevelFull => 20,
            Error::NoEdge => 21,
        }
    }

    // The fault's own code, where the refusal carries one: a number of the poller's or the source's.
    pub fn code(self) -> Option<u32>
        ensures { result ≡ code_of self }
    {
        match self {
            Error::SourceFailed(code) => Some(code),
            Error::PollerFailed(code) => Some(code),
            _ => None,
        }
    }
}
