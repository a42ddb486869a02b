// Replays a stored sample of scripts, and says which answers differ from the stored ones.
//
// A sample is a text. A script in it is, for each of its lines, that line and behind it a line of two spaces and the
// stored answer; between two scripts stands an empty line. So an empty line of a script cannot be stored.
//
// A line `(P (s s ..))` plans what the next calls of the poller come to, a step a call, and is answered `(ok)`: `w` works,
// `i` is interrupted, and a number of 32 bits, spelled as doorbench spells them, is the code of a fault. `(P ())` is the
// empty plan. Any other line is doorbench's.
#![tactic(auto)]

mod plan;
mod report;

ghost use Rattle.bench.specs.Calls.{Ordered};
ghost use Rattle.replay.specs.Does.{Does};

use anyhow::{Context, bail};
use bench::{Bench, Source, perform, push_all};
use kinds::EventSource;
use plan::{Plan, read_plan};
use poller::{BenchPoller, Poller};
use report::{Answered, write_report};
use script::read_line;
use std::alloc::{AllocError, Global};
use std::io;
use sys::{Clock, SetClock};

// A line of the sample, and its number there, from 1.
type Numbered<'a> = (&'a str, u64);

// Plans what the line plans, or else does what its form asks for, and writes the answer.
fn answer_line(
    heap: Global,
    bench: &mut Bench,
    line: &[u8],
    out: &mut String,
) -> Result<(), AllocError>
    ensures is { Does ⟦<BenchPoller as Poller>⟧ ⟦<SetClock as Clock>⟧ ⟦<Source as EventSource>⟧ line.now bench.old out.old result bench.new out.new }
    ensures order { Ordered ⟦<BenchPoller as Poller>⟧ ⟦<Source as EventSource>⟧ bench.old → Ordered ⟦<BenchPoller as Poller>⟧ ⟦<Source as EventSource>⟧ bench.new }
{
    match read_plan(heap, line)? {
        Some(steps) => {
            bench.event_loop.arrange(&mut Plan { steps: Some(steps) });
            push_all(out, &["(ok)"])
        }
        None => perform(bench, read_line(heap, line)?, out),
    }
}

// Answers each line of the script, and notes the answers.
fn play(
    heap: Global,
    bench: &mut Bench,
    script: &[Numbered],
    answered: &mut Vec<Answered>,
) -> anyhow::Result<()> {
    for pair in script.chunks(2) {
        let [(line, number), (stored, _)] = pair else {
            bail!("a line of a script has no stored answer");
        };
        let stored = stored
            .strip_prefix("  ")
            .context("a stored answer has no two spaces before it")?;
        let mut answer = String::new(heap);
        answer_line(heap, bench, line.as_bytes(), &mut answer)?;
        answered.push(Answered {
            number: *number,
            answer,
            stored: String::from_str(heap, stored)?,
        })?;
    }
    Ok(())
}

// The script has a loop of its own.
fn replay(heap: Global, script: &[Numbered], answered: &mut Vec<Answered>) -> anyhow::Result<()> {
    let mut bench = Bench::new(heap)?;
    let played = play(heap, &mut bench, script, answered);
    bench.end();
    played
}

fn main(rt: HostRuntime) -> anyhow::Result<()> {
    let heap = rt.alloc();
    let sample = io::read_to_string(heap, rt.stdin())?;
    let lines: Vec<Numbered> = sample.as_str().lines().zip(1..).collect(heap)?;
    let scripts: Vec<&[Numbered]> = lines
        .as_slice()
        .split(|(line, _)| line.is_empty())
        .collect(heap)?;
    let mut answered = Vec::new(heap);
    for script in &scripts {
        replay(heap, script, &mut answered)?;
    }
    let mut report = String::new(heap);
    write_report(scripts.len(), answered.as_slice(), &mut report)?;
    print!(rt; "{report}")?;
    Ok(())
}
