// Two tokens, drawn one after the other.
ghost use Rattle.doorbell.specs.Two.{both_keys, draw_two, first_token};
ghost use Rattle.std.proofs.Common.{rules};

use crate::doorbell::Tokens;
use one_file::Tickets;
use token::{Error, Token, TokenFactory};

impl Tickets for Tokens {
    ghost draws = { draw_two };

    ghost main = { first_token };

    ghost keys = { both_keys };

    ghost drawing = { Prim.search rules };

    fn draw(factory: &mut TokenFactory) -> Result<Tokens, Error> {
        let first = factory.token()?;
        let second = factory.token()?;
        Ok(Tokens { first, second })
    }

    fn token(&self) -> Token {
        self.first
    }
}
