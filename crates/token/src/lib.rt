// Tokens, the factory that draws them, and every refusal of the loop.
#![tactic(auto)]

mod error;
mod factory;
mod token;

pub use error::Error;
pub use factory::TokenFactory;
pub use token::Token;

#[cfg(test)]
mod tests;
