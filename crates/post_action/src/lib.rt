// What a source wants done with itself once its event is processed.
#![tactic(auto)]

ghost use Rattle.std.specs.Prelude.{◌≡◌};
ghost use Rattle.post_action.specs.Join.{join_of};

use std::ops::BitOr;

#[derive(Clone, Copy, PartialEq, Eq, Debug)]
pub enum PostAction {
    Continue,
    Reregister,
    Disable,
    Remove,
}

// The one action of two parts of a source: their common value, else Reregister.
impl BitOr for PostAction {
    type Output = PostAction;

    ghost bitor_gives = { λ a b r. r ≡ join_of a b };

    fn bitor(self, other: PostAction) -> PostAction {
        if self == other {
            self
        } else {
            PostAction::Reregister
        }
    }
}
