// Handlers of the tests. They obey the law of their trait, and nothing more is said of them.
ghost use Rattle.std.proofs.Common.{rules};
ghost use Rattle.std.specs.Prelude.{◌≡◌};
ghost use Rattle.rules.specs.Kinds.{Grown};
ghost use Rattle.post_action.specs.declared.PostAction.TheVariants.{Continue};
ghost use Rattle.token.specs.Refusal.{done};

use generic::GenericHandler;
use kinds::{Errand, Errands};
use poller::Readiness;
use post_action::PostAction;
use timer::{TimeoutAction, TimerHandler};
use token::{Error, Token};

// Answers each event with Continue.
#[derive(Clone, Copy)]
pub struct Stays;

impl GenericHandler for Stays {
    ghost handles = { λ h x es r h' es'. (r ≡ done Continue) × (es' ≡ es) };

    ghost handling = { Prim.search rules };

    fn handle(
        &mut self,
        _readiness: Readiness,
        _errands: &mut Errands,
    ) -> Result<PostAction, Error> {
        Ok(PostAction::Continue)
    }
}

// No source has this token: the tests use fewer slots.
const NOBODY: Token = Token {
    id: 1_024,
    version: 0,
    sub_id: 0,
};

// Rings once, and asks for the remove of nobody.
#[derive(Clone, Copy)]
pub struct Leaves;

impl TimerHandler for Leaves {
    ghost rings = { λ h d es r h' es'. Grown es es' };

    ghost ringing = { λ h d es r h' es' rung. rung };

    fn ring(&mut self, _deadline: u64, errands: &mut Errands) -> TimeoutAction {
        let _ = errands.push(Errand::Remove(NOBODY));
        TimeoutAction::Drop
    }
}
