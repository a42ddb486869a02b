// The answer to a line, as text.
ghost use Rattle.std.specs.Prelude.{◌++◌, codes};
ghost use Rattle.bench.specs.Answer.{call_text, dispatch_text, insert_text, lines_text, refusal_text, removal_text, sheet_text, stop_text};
ghost use Rattle.bench.specs.Calls.{Ordered, Performs};
ghost use Rattle.bench.specs.Written.{Written};
ghost use Rattle.sheet.specs.Printed.{line_text};
ghost use Rattle.token.specs.Refusal.{number_of, outcome};

use crate::bench::{Bench, Fixed, Repeat, Source};
use crate::text::push_all;
use event_loop::{InsertError, Line};
use generic::Generic;
use itoa::Buffer;
use kinds::{Either, EventSource};
use poller::{BenchPoller, Interest, Mode, Poller};
use script::Form;
use std::alloc::AllocError;
use sys::{Clock, SetClock};
use timer::Timer;
use token::{Error, Token};

// Does what the line asks for, and writes the answer. Only an insert can find no room, and then nothing was done.
pub fn perform(bench: &mut Bench, form: Option<Form>, out: &mut String) -> Result<(), AllocError>
    ensures is { Performs ⟦<BenchPoller as Poller>⟧ ⟦<SetClock as Clock>⟧ ⟦<Source as EventSource>⟧ form bench.old out.old result bench.new out.new }
    ensures order { Ordered ⟦<BenchPoller as Poller>⟧ ⟦<Source as EventSource>⟧ bench.old → Ordered ⟦<BenchPoller as Poller>⟧ ⟦<Source as EventSource>⟧ bench.new }
{
    match form {
        Some(Form::Timer { deadline, period }) => {
            let timer = Timer::from_deadline(deadline, Repeat { period });
            write_insert(bench.insert(Either::Left(timer))?, out)
        }
        Some(Form::Generic { file, action }) => {
            let generic = Generic::new(file, Interest::READ, Mode::Level, Fixed { action });
            write_insert(bench.insert(Either::Right(generic))?, out)
        }
        Some(Form::Enable(n)) => write_call(bench.enable(n), out),
        Some(Form::Update(n)) => write_call(bench.update(n), out),
        Some(Form::Disable(n)) => write_call(bench.disable(n), out),
        Some(Form::Remove(n)) => write_removal(bench.remove(n), out),
        Some(Form::Wait { clock, files }) => {
            let answer = bench.dispatch(clock, files);
            write_dispatch(answer, bench.event_loop.sheet.items.as_slice(), out)
        }
        None => write_refusal(Error::BadForm, out),
    }
}

fn write_refusal(error: Error, out: &mut String) -> Result<(), AllocError>
    ensures { Written (refusal_text (number_of error)) out.old result out.new }
{
    let mut number = Buffer::new();
    push_all(out, &["(no ", number.format(error.number()), ")"])
}

fn write_call(answer: Result<(), Error>, out: &mut String) -> Result<(), AllocError>
    ensures { Written (call_text (outcome answer)) out.old result out.new }
{
    match answer {
        Ok(()) => push_all(out, &["(ok)"]),
        Err(error) => write_refusal(error, out),
    }
}

fn write_removal(answer: Result<bool, Error>, out: &mut String) -> Result<(), AllocError>
    ensures { Written (removal_text (outcome answer)) out.old result out.new }
{
    match answer {
        Ok(true) => push_all(out, &["(ok)"]),
        Ok(false) => push_all(out, &["(none)"]),
        Err(error) => write_refusal(error, out),
    }
}

// A source that comes back holds nothing, and ends here.
fn write_insert(
    answer: Result<Token, InsertError<Source>>,
    out: &mut String,
) -> Result<(), AllocError>
    ensures { Written (insert_text answer) out.old result out.new }
{
    match answer {
        Ok(token) => {
            let (mut id, mut version) = (Buffer::new(), Buffer::new());
            let (id, version) = (id.format(token.id), version.format(token.version));
            push_all(out, &["(ok ", id, " ", version, ")"])
        }
        Err(InsertError { inserted, error }) => {
            inserted.end();
            write_refusal(error, out)
        }
    }
}

// The sheet, and behind it why the dispatch stopped, if it did.
fn write_dispatch(
    answer: Result<(), Error>,
    lines: &[Line],
    out: &mut String,
) -> Result<(), AllocError>
    ensures { Written (dispatch_text (outcome answer) lines.now) out.old result out.new }
{
    write_sheet(lines, out)?;
    write_stop(answer, out)
}

fn write_stop(answer: Result<(), Error>, out: &mut String) -> Result<(), AllocError>
    ensures { Written (stop_text (outcome answer)) out.old result out.new }
{
    match answer {
        Ok(()) => Ok(()),
        Err(error) => {
            push_all(out, &[" "])?;
            write_refusal(error, out)
        }
    }
}

fn write_sheet(lines: &[Line], out: &mut String) -> Result<(), AllocError>
    ensures { Written (sheet_text lines.now) out.old result out.new }
{
    push_all(out, &["(sheet"])?;
    write_lines(lines, out)?;
    push_all(out, &[")"])
}

// Each line behind a space.
fn write_lines(lines: &[Line], out: &mut String) -> Result<(), AllocError>
    ensures { Written (lines_text lines.now) out.old result out.new }
{
    for line in lines {
        write_line(*line, out)?;
    }
    Ok(())
}

fn write_line(line: Line, out: &mut String) -> Result<(), AllocError>
    ensures { Written (codes " " ++ line_text line) out.old result out.new }
{
    let (class, verdict) = (line.class.letter(), line.verdict.letter());
    let mut key = Buffer::new();
    push_all(
        out,
        &[" (", class, " ", key.format(line.key), " ", verdict, ")"],
    )
}
