// Handlers of the tests. They obey the law of their trait, and nothing more is said of them.
ghost use Rattle.rules.specs.Kinds.{Grown};
ghost use Rattle.rules.specs.Refusals.{RefusedBy, by_event};

use generic::GenericHandler;
use kinds::{Errand, Errands};
use poller::Readiness;
use post_action::PostAction;
use std::mem;
use timer::{TimeoutAction, TimerHandler};
use token::Error;

// Asks for one errand, and then answers with the action, or fails with the code.
#[derive(Clone, Copy)]
pub struct Asks {
    pub errand: Errand,
    pub answer: Result<PostAction, u32>,
}

impl GenericHandler for Asks {
    ghost handles = { λ h x es r h' es'. Grown es es' × RefusedBy by_event r };

    ghost handling = { λ h x es r h' es' handled. handled };

    fn handle(
        &mut self,
        _readiness: Readiness,
        errands: &mut Errands,
    ) -> Result<PostAction, Error> {
        errands.push(self.errand)?;
        self.answer.map_err(Error::SourceFailed)
    }
}

// Answers with the action, and with Drop from then on. Asks for an idle with the deadline's last 32 bits as its number.
#[derive(Clone, Copy)]
pub struct Rings {
    pub next: TimeoutAction,
}

impl TimerHandler for Rings {
    ghost rings = { λ h d es r h' es'. Grown es es' };

    ghost ringing = { λ h d es r h' es' rung. rung };

    fn ring(&mut self, deadline: u64, errands: &mut Errands) -> TimeoutAction {
        let _ = errands.push(Errand::Idle((deadline & 0xffff_ffff) as u32));
        mem::replace(&mut self.next, TimeoutAction::Drop)
    }
}
