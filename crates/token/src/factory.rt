// Draws the tokens of one registration.
ghost use Rattle.std.specs.Prelude.{◌≡◌, ◌≤◌};
ghost use Rattle.token.specs.Drawing.{draw_of};
ghost use Rattle.token.specs.Key.{own_source};
ghost use Rattle.token.specs.Refusal.{outcome};

use crate::error::Error;
use crate::token::Token;
use std::marker::Model;

#[derive(Drop)]
pub struct TokenFactory {
    pub next_token: Token,
}

// A factory is the token that it draws next.
impl Model for TokenFactory {
    ghost use Rattle.token.specs.declared.token.Token.{Token};

    ghost Value = { Token };

    ghost view = { λ f. f.next_token };
}

impl TokenFactory {
    // A factory of the slot and version that the token names, with every sub-id left. No `From`: the name is calloop's.
    pub fn new(token: Token) -> TokenFactory
        ensures { result ≡ own_source token }
    {
        TokenFactory {
            next_token: token.forget_sub_id(),
        }
    }

    pub fn token(&mut self) -> Result<Token, Error>
        ensures is { (outcome result, self.new) ≡ draw_of self.old }
        ensures few { self.old.sub_id ≤ 65535 }
    {
        let token = self.next_token;
        if token.sub_id == 65_535 {
            return Err(Error::SubIdsSpent);
        }
        self.next_token.sub_id = token.sub_id + 1;
        Ok(token)
    }
}
