// What is done when the timer rings. No closure: `new` would have to require that it may be called at any deadline,
// and what it asks for would obey no law.
ghost use Rattle.std.specs.Prelude.{ℕ, List};
ghost use Rattle.rules.specs.Kinds.{Grown};
ghost use Rattle.kinds.specs.declared.errand.Errand.{Errand};
ghost use Rattle.alarm.specs.declared.alarm.TimeoutAction.{TimeoutAction};

use alarm::TimeoutAction;
use kinds::Errands;

pub trait TimerHandler {
    // What a call may come to. Only the call itself gives it.
    ghost rings: { Self → ℕ → List Errand → TimeoutAction → Self → List Errand → Type 0 };

    fn ring(&mut self, deadline: u64, errands: &mut Errands) -> TimeoutAction
        ensures { rings self.old deadline errands.old result self.new errands.new };

    // Errands are asked for behind those that stand.
    ghost ringing: { (h : Self) (d : ℕ) (es : List Errand) (r : TimeoutAction) (h' : Self) (es' : List Errand) → rings h d es r h' es' → Grown es es' };
}
