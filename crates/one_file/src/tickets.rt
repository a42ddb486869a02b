// What a source draws when it registers its file.
ghost use Rattle.std.specs.Prelude.{◌≡◌, ℕ, List};
ghost use Rattle.one_file.specs.Tickets.{DrawnFrom, itself, key_alone};
ghost use Rattle.rules.specs.Meaning.{Drawer};
ghost use Rattle.token.specs.Drawing.{draw_of};
ghost use Rattle.token.specs.Refusal.{Outcome, outcome};
ghost use Rattle.token.specs.declared.token.Token.{Token};
ghost use Rattle.std.proofs.Common.{rules};

use token::{Error, Token, TokenFactory};

pub trait Tickets: Copy {
    // What a factory gives, and the factory after that.
    ghost draws: { Drawer → Outcome Self × Drawer };

    // The token of the file.
    ghost main: { Self → Token };

    // All keys that the source keeps.
    ghost keys: { Self → List ℕ };

    fn draw(factory: &mut TokenFactory) -> Result<Self, Error>
        ensures { (outcome result, factory.new) ≡ draws factory.old };

    fn token(&self) -> Token
        ensures { result ≡ main self.now };

    ghost drawing: { (d : Drawer) → DrawnFrom main keys d (draws d).0 (draws d).1 };
}

// One token alone.
impl Tickets for Token {
    ghost draws = { draw_of };

    ghost main = { itself };

    ghost keys = { key_alone };

    ghost drawing = { Prim.search rules };

    fn draw(factory: &mut TokenFactory) -> Result<Token, Error> {
        factory.token()
    }

    fn token(&self) -> Token {
        *self
    }
}
