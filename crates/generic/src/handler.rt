// What is done when the file is ready. No closure: `new` would have to require that it may be called at any event,
// and what it asks for would obey no law.
ghost use Rattle.poller.specs.declared.entry.Readiness.{Readiness};
ghost use Rattle.post_action.specs.declared.PostAction.{PostAction};
ghost use Rattle.rules.specs.Kinds.{Grown};
ghost use Rattle.rules.specs.Refusals.{RefusedBy, by_event};
ghost use Rattle.kinds.specs.declared.errand.Errand.{Errand};
ghost use Rattle.token.specs.Refusal.{Outcome, outcome};
ghost use Rattle.std.specs.Prelude.{List};

use kinds::Errands;
use poller::Readiness;
use post_action::PostAction;
use token::Error;

pub trait GenericHandler {
    // What a call may come to. Only the call itself gives it.
    ghost handles: { Self → Readiness → List Errand → Outcome PostAction → Self → List Errand → Type 0 };

    fn handle(&mut self, readiness: Readiness, errands: &mut Errands) -> Result<PostAction, Error>
        ensures { handles self.old readiness errands.old (outcome result) self.new errands.new };

    // Errands are asked for behind those that stand, and a refusal is one of an event's.
    ghost handling: { (h : Self) (x : Readiness) (es : List Errand) (r : Outcome PostAction) (h' : Self) (es' : List Errand) → handles h x es r h' es' → Grown es es' × RefusedBy by_event r };
}
