// What a source kind is. Its calls work over any poller and any clock.
ghost use Rattle.std.specs.Prelude.{◌≡◌, List, Option};
ghost use Rattle.poller.specs.Meaning.{Answer};
ghost use Rattle.poller.specs.declared.entry.Readiness.{Readiness};
ghost use Rattle.post_action.specs.declared.PostAction.{PostAction};
ghost use Rattle.rules.specs.Kinds.{LettingGo, Processing, Registering, Reregistering, Unregistering, Wakes};
ghost use Rattle.rules.specs.Meaning.{Drawer, Meaning};
ghost use Rattle.kinds.specs.Shown.{left};
ghost use Rattle.kinds.specs.declared.errand.Errand.{Errand};
ghost use Rattle.kinds.specs.declared.errand.Reply.{Reply};
ghost use Rattle.sys.specs.World.{Between, Exchange, World};
ghost use Rattle.sys.specs.declared.event.PollEvent.{PollEvent};
ghost use Rattle.token.specs.Refusal.{Outcome, outcome};
ghost use Rattle.token.specs.declared.token.Token.{Token};

use crate::errand::{Errand, Reply};
use crate::errands::Errands;
use crate::events::EventIterator;
use poller::{Poller, Readiness};
use post_action::PostAction;
use sys::{Clock, Poll};
use token::{Error, Token, TokenFactory};

// A kind without hooks says so call by call: a body here would have to establish `hears`, `sleeps` and `sees`,
// which are each kind's own.
pub trait EventSource {
    ghost means: { Self → Meaning };

    // What each call may come to. Only the call itself gives it, so that nobody can claim one that was not made.
    // The list of exchanges is what was asked of the poller and the clock, with their answers.
    ghost registers: { Self → World → Drawer → List Exchange → Answer → Self → World → Drawer → Type 0 };

    ghost reregisters: { Self → World → Drawer → List Exchange → Answer → Self → World → Drawer → Type 0 };

    ghost unregisters: { Self → World → List Exchange → Answer → Self → World → Type 0 };

    ghost leaves: { Self → World → List Exchange → Self → World → Type 0 };

    ghost processes: { Self → World → Readiness → Token → List Errand → List Exchange → Outcome PostAction → Self → World → List Errand → Type 0 };

    ghost hears: { Self → Errand → Outcome Reply → Self → Type 0 };

    ghost sleeps: { Self → Outcome (Option (Readiness × Token)) → Self → Type 0 };

    ghost sees: { Self → List PollEvent → Self → Type 0 };

    // The value ended as it was then, so that no call is made on one that is about to end.
    ghost ends: { Self → Type 0 };

    fn register<P: Poller, C: Clock>(
        &mut self,
        poll: &mut Poll<P, C>,
        factory: &mut TokenFactory,
    ) -> Result<(), Error>
        ensures { Between P.Poller C.Clock poll.old poll.new (λ w xs w'. registers self.old w factory.old xs (outcome result) self.new w' factory.new) };

    fn reregister<P: Poller, C: Clock>(
        &mut self,
        poll: &mut Poll<P, C>,
        factory: &mut TokenFactory,
    ) -> Result<(), Error>
        ensures { Between P.Poller C.Clock poll.old poll.new (λ w xs w'. reregisters self.old w factory.old xs (outcome result) self.new w' factory.new) };

    fn unregister<P: Poller, C: Clock>(&mut self, poll: &mut Poll<P, C>) -> Result<(), Error>
        ensures { Between P.Poller C.Clock poll.old poll.new (λ w xs w'. unregisters self.old w xs (outcome result) self.new w') };

    // Gives up all that it holds, whatever the poller answers.
    fn let_go<P: Poller, C: Clock>(&mut self, poll: &mut Poll<P, C>)
        ensures { Between P.Poller C.Clock poll.old poll.new (λ w xs w'. leaves self.old w xs self.new w') };

    // Ends a value that holds nothing any more.
    fn end(self)
        ensures { ends self };

    fn process_events<P: Poller, C: Clock>(
        &mut self,
        poll: &mut Poll<P, C>,
        readiness: Readiness,
        token: Token,
        errands: &mut Errands,
    ) -> Result<PostAction, Error>
        ensures { Between P.Poller C.Clock poll.old poll.new (λ w xs w'. processes self.old w readiness token errands.old xs (outcome result) self.new w' errands.new) };

    // Told the answer to an errand that it asked for.
    fn told(&mut self, errand: Errand, answer: Result<Reply, Error>)
        ensures { hears self.old errand (outcome answer) self.new };

    // Whether the value wants the two hooks below.
    fn needs_hooks(&self) -> bool
        ensures { result ≡ (means self.now).hooks };

    // Asked before a wait: a synthetic event of its own, or nothing.
    fn before_sleep(&mut self) -> Result<Option<(Readiness, Token)>, Error>
        ensures { sleeps self.old (outcome result) self.new };

    // Shown after a wait its own events, of the poller's and the timers'.
    fn before_handle_events(&mut self, events: EventIterator<'_>)
        ensures { sees self.old (left events.entry) self.new };

    ghost registering: { (s : Self) (w : World) (d : Drawer) (xs : List Exchange) (r : Answer) (s' : Self) (w' : World) (d' : Drawer) → registers s w d xs r s' w' d' → Registering (means s) w d xs r (means s') w' d' };

    ghost reregistering: { (s : Self) (w : World) (d : Drawer) (xs : List Exchange) (r : Answer) (s' : Self) (w' : World) (d' : Drawer) → reregisters s w d xs r s' w' d' → Reregistering (means s) w d xs r (means s') w' d' };

    ghost unregistering: { (s : Self) (w : World) (xs : List Exchange) (r : Answer) (s' : Self) (w' : World) → unregisters s w xs r s' w' → Unregistering (means s) w xs r (means s') w' };

    ghost leaving: { (s : Self) (w : World) (xs : List Exchange) (s' : Self) (w' : World) → leaves s w xs s' w' → LettingGo (means s) w xs (means s') w' };

    ghost processing: { (s : Self) (w : World) (x : Readiness) (t : Token) (es : List Errand) (xs : List Exchange) (r : Outcome PostAction) (s' : Self) (w' : World) (es' : List Errand) → processes s w x t es xs r s' w' es' → Processing (means s) w t es xs r (means s') w' es' };

    ghost hearing: { (s : Self) (e : Errand) (a : Outcome Reply) (s' : Self) → hears s e a s' → means s' ≡ means s };

    ghost sleeping: { (s : Self) (r : Outcome (Option (Readiness × Token))) (s' : Self) → sleeps s r s' → (means s' ≡ means s) × Wakes (means s) r };

    ghost seeing: { (s : Self) (vs : List PollEvent) (s' : Self) → sees s vs s' → means s' ≡ means s };
}
