// The lines of a sample that plan what the next calls of the poller come to. A script of doorbench has none.
ghost use Rattle.std.specs.Prelude.{◌≡◌, None, IfErr, IfOk, MatchOption, codes};
ghost use Rattle.poller.specs.Bench.{bench_of};
ghost use Rattle.script.specs.Line.{StartsWith};
ghost use Rattle.replay.specs.Plan.{Begins, Lists, NoList, NoStep, Planning, planned_by};

use poller::{BenchPoller, Step};
use script::read_number;
use std::alloc::{AllocError, Global};
use sys::{Environment, SetClock};

// What the next calls of the poller come to; None once `arrange` has handed it over. The clock and the ready files stay.
#[derive(Drop)]
pub struct Plan {
    pub steps: Option<Vec<Step>>,
}

impl Environment<BenchPoller, SetClock> for Plan {
    ghost arranges = { λ l p c l' p' c'. (bench_of p' ≡ planned_by l (bench_of p)) × (c' ≡ c) × (l'.steps ≡ None) };

    fn arrange(&mut self, poller: &mut BenchPoller, _clock: &mut SetClock) {
        if let Some(steps) = self.steps.take() {
            poller.plan(steps);
        }
    }
}

// The steps that the line plans, or None where it is no line `(P (step step ..))`. No `FromStr`: they need the heap.
pub fn read_plan(heap: Global, line: &[u8]) -> Result<Option<Vec<Step>>, AllocError>
    ensures reads { IfOk result (λ o. Planning line.now o) }
    ensures needs { IfErr result (λ _. StartsWith (codes "(P (") line.now) }
{
    let [b'(', b'P', b' ', b'(', rest @ ..] = line else {
        return Ok(None);
    };
    read_steps(heap, rest)
}

// The steps of a text `step step ..))`, or None where it is no such text.
fn read_steps(heap: Global, text: &[u8]) -> Result<Option<Vec<Step>>, AllocError>
    ensures { IfOk result (λ o. MatchOption o (NoList text.now) (λ steps. Lists steps.items text.now)) }
{
    let mut steps = Vec::new(heap);
    if let b"))" = text {
        return Ok(Some(steps));
    }
    let mut rest = text;
    // Where a step ends says where the next one begins, so no iterator has them beforehand.
    while let Some((step, after)) = read_step(rest) {
        steps.push(step)?;
        match after {
            [b' ', more @ ..] => rest = more,
            b"))" => return Ok(Some(steps)),
            _ => return Ok(None),
        }
    }
    Ok(None)
}

// The step at the front of the text, and the text after it.
fn read_step(text: &[u8]) -> Option<(Step, &[u8])>
    ensures { MatchOption result (NoStep text.now) (λ p. Begins p.0 text.now p.1.now) }
{
    match text {
        [b'w', rest @ ..] => Some((Step::Work, rest)),
        [b'i', rest @ ..] => Some((Step::Interrupt, rest)),
        _ => {
            let (number, rest) = read_number(text)?;
            let code = u32::try_from(number).ok()?;
            Some((Step::Fail(code), rest))
        }
    }
}
