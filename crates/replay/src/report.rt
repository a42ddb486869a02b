// What a replay comes to, as text.
ghost use Rattle.std.specs.Prelude.{◌≡◌, count_by};
ghost use Rattle.bench.specs.Written.{Written};
ghost use Rattle.replay.specs.Report.{counts_text, difference_text, differences_text, differs, report_text};

use bench::push_all;
use itoa::Buffer;
use std::alloc::AllocError;

// What a line of a script was answered, beside the answer that is stored for it.
#[derive(Drop)]
pub struct Answered {
    // of the line in the sample
    pub number: u64,
    pub answer: String,
    pub stored: String,
}

impl Answered {
    fn differs(&self) -> bool
        ensures { result ≡ differs self.now }
    {
        self.answer.as_str() != self.stored.as_str()
    }
}

// A line for each answer that differs, and behind them one that counts.
pub fn write_report(
    scripts: usize,
    answered: &[Answered],
    out: &mut String,
) -> Result<(), AllocError>
    ensures { Written (report_text scripts answered.now) out.old result out.new }
{
    write_differences(answered, out)?;
    let differences = count_differences(answered);
    write_counts(scripts, answered.len(), differences, out)
}

fn write_differences(answered: &[Answered], out: &mut String) -> Result<(), AllocError>
    ensures { Written (differences_text answered.now) out.old result out.new }
{
    for line in answered {
        write_difference(line, out)?;
    }
    Ok(())
}

fn write_difference(line: &Answered, out: &mut String) -> Result<(), AllocError>
    ensures { Written (difference_text line.now) out.old result out.new }
{
    if !line.differs() {
        return Ok(());
    }
    let mut number = Buffer::new();
    let number = number.format(line.number);
    let (answer, stored) = (line.answer.as_str(), line.stored.as_str());
    push_all(
        out,
        &["line ", number, ": ", answer, ", stored ", stored, "\n"],
    )
}

fn write_counts(
    scripts: usize,
    lines: usize,
    differences: usize,
    out: &mut String,
) -> Result<(), AllocError>
    ensures { Written (counts_text scripts lines differences) out.old result out.new }
{
    let (mut first, mut second, mut third) = (Buffer::new(), Buffer::new(), Buffer::new());
    let (scripts, lines) = (first.format(scripts), second.format(lines));
    let differences = third.format(differences);
    push_all(
        out,
        &[
            scripts,
            " scripts, ",
            lines,
            " lines, ",
            differences,
            " differences\n",
        ],
    )
}

fn count_differences(answered: &[Answered]) -> usize
    ensures { result ≡ count_by differs answered.now }
{
    answered.iter().filter(|line| line.differs()).count()
}
