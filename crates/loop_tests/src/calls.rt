// The calls of the loop as a table, with what each comes to.
use event_loop::Verdict;
use sys::Class;

#[derive(Clone, Copy, Debug)]
pub enum Kind {
    // a Timer, by its deadline
    Timer,
    // a Generic in that mode, by its file
    OneShot,
    Level,
    Edge,
    // a Doorbell, by its file
    Doorbell,
}

#[derive(Clone, Copy, Debug)]
pub enum Call {
    // insert of a source with that file or deadline
    Insert(Kind, u32),
    // insert of the source that was handed back last
    Again,
    // inserts with the files or deadlines from that one on, until one is refused
    Fill(Kind, u32),
    // a call with the token of that id and version
    Enable(u32, u16),
    Update(u32, u16),
    Disable(u32, u16),
    Remove(u32, u16),
    // idle of that value
    Idle(u32),
    // a dispatch at time 0, while that file is ready
    Ready(u32),
    // a dispatch at that time, while no file is ready
    At(u64),
    // so many of the poller's next calls fail, with code 4
    Fail(usize),
}

#[derive(Clone, Copy, PartialEq, Eq, Debug)]
pub enum Came {
    // the token of an insert, by its id and version
    Token(u32, u16),
    // so many inserts were accepted, and the next was refused with that number
    Fitted(u32, u8),
    // an enable, update or disable was accepted
    Accepted,
    // whether a source left
    Left(bool),
    Ticket(u32),
    // a dispatch brought nothing, or one event, by the id and version of its token
    Quiet,
    Event(Class, u32, u16, Verdict),
    // a refusal, by its number
    No(u8),
    // a refusal with a code
    Fault(u8, u32),
}

// A call, and what it comes to.
pub type Row = (Call, Came);

// The poller failed by its plan.
pub const FAILED: Came = Came::Fault(14, 4);
