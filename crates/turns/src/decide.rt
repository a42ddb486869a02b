// What is done with a source once its event is processed.
ghost use Rattle.std.specs.Prelude.{◌≡◌};
ghost use Rattle.model.specs.Dispatch.{action_of};
ghost use Rattle.token.specs.Refusal.{outcome};

use post_action::PostAction;
use token::Error;

// An action that was asked for while the event was handled replaces a Continue, and is done at a fault.
pub fn decide(answer: Result<PostAction, Error>, pending: PostAction) -> PostAction
    ensures { result ≡ action_of (outcome answer) pending }
{
    match (answer, pending) {
        (Ok(PostAction::Continue), asked) if asked != PostAction::Continue => asked,
        (Ok(answered), _) => answered,
        (Err(_), asked) => asked,
    }
}
