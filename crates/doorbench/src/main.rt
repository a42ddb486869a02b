// Reads a door script from standard input, and writes one line for each of its lines.
#![tactic(auto)]

use bench::{Bench, perform};
use script::read_line;
use std::fmt;
use std::io::{BufRead, BufReader, BufWriter, Read, Write};

// Answers each line until there is none. All lines are read into one buffer, which `split` would make anew for each, and
// an answer goes out with its newline in one piece.
fn answer_lines<R: Read + Drop, W: Write + Drop>(
    rt: &HostRuntime,
    bench: &mut Bench,
    mut input: BufReader<R>,
    output: &mut BufWriter<W>,
) -> anyhow::Result<()> {
    let heap = rt.alloc();
    let mut line = Vec::new(heap);
    let mut out = String::new(heap);
    for _ in 0..u64::MAX {
        line.clear();
        if input.read_until(b'\n', &mut line)? == 0 {
            break;
        }
        let text = line.strip_suffix(b"\n").unwrap_or(&line);
        let form = read_line(heap, text)?;
        out.clear();
        // want of memory ends the program as a `write!` without room would
        perform(bench, form, &mut out).map_err(|_| fmt::Error)?;
        out.push('\n')?;
        output.write_all(out.as_bytes())?;
    }
    output.flush()?;
    Ok(())
}

fn main(rt: HostRuntime) -> anyhow::Result<()> {
    let heap = rt.alloc();
    let input = BufReader::new(heap, rt.stdin())?;
    let mut output = BufWriter::new(heap, rt.stdout())?;
    let mut bench = Bench::new(heap)?;
    let answered = answer_lines(&rt, &mut bench, input, &mut output);
    bench.end();
    answered
}
