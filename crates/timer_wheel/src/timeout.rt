// One entry of the wheel.
use token::Token;

#[derive(Clone, Copy, PartialEq, Eq, Debug)]
pub struct TimeoutData {
    pub deadline: u64,
    pub token: Token,
    pub counter: u32,
}
