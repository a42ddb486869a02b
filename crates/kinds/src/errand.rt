// What a source may ask for while it processes an event, and the answers.
use token::Token;

// A call of the user's, except dispatch.
#[derive(Clone, Copy, PartialEq, Eq, Debug)]
pub enum Errand {
    // insert a copy of the spare with this number
    Insert(u32),
    Enable(Token),
    Update(Token),
    Disable(Token),
    Remove(Token),
    Idle(u32),
    // cancel the idle with this ticket
    Cancel(u32),
}

#[derive(Clone, Copy, PartialEq, Eq, Debug)]
pub enum Reply {
    Inserted(Token),
    // an enable, update or disable was accepted
    Accepted,
    // whether a source left
    Removed(bool),
    // the idle's ticket
    Ticket(u32),
    // whether an idle was stopped
    Cancelled(bool),
}
