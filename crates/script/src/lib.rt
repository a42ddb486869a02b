// The lines of a test script: one form to a line, one spelling for each form.
#![tactic(auto)]

ghost use Rattle.std.specs.Prelude.{◌≡◌, ◌^◌, ◌<◌, ◌++◌, IfErr, IfOk, SomeIff, codes, MatchOption, ◌≢◌};
ghost use Rattle.script.specs.Line.{Last, Lists, NoLast, NoList, Reading, StartsWith, letter_of};
ghost use Rattle.script.specs.Number.{NoNumber, Number, Split, value};

use post_action::PostAction;
use std::alloc::{AllocError, Global};

// What a line asks for.
#[derive(Debug, Drop)]
pub enum Form {
    // (T deadline period)
    Timer { deadline: u64, period: u64 },
    // (G file action)
    Generic { file: u32, action: PostAction },
    // (W clock (file file ..))
    Wait { clock: u64, files: Vec<u32> },
    // (E n): the n-th accepted insert, counted from 0, as in the three below
    Enable(u64),
    // (U n)
    Update(u64),
    // (D n)
    Disable(u64),
    // (R n)
    Remove(u64),
}

// The form that the line is, or None where it is of no form. No `FromStr`: the files need the heap, and nothing else does.
pub fn read_line(heap: Global, line: &[u8]) -> Result<Option<Form>, AllocError>
    ensures reads { IfOk result (λ o. Reading line.now o) }
    ensures needs { IfErr result (λ _. StartsWith (codes "(W ") line.now) }
{
    let [b'(', letter, b' ', rest @ ..] = line else {
        return Ok(None);
    };
    // letters are matched as characters, as the grammar writes them
    match char::from(*letter) {
        'T' => Ok(read_timer(rest)),
        'G' => Ok(read_generic(rest)),
        'W' => read_wait(heap, rest),
        'E' => Ok(read_last(rest).map(Form::Enable)),
        'U' => Ok(read_last(rest).map(Form::Update)),
        'D' => Ok(read_last(rest).map(Form::Disable)),
        'R' => Ok(read_last(rest).map(Form::Remove)),
        _ => Ok(None),
    }
}

// The form that a line `(T text` is.
fn read_timer(text: &[u8]) -> Option<Form>
    ensures { Reading (codes "(T " ++ text.now) result }
{
    let (deadline, rest) = read_number(text)?;
    let [b' ', rest @ ..] = rest else {
        return None;
    };
    let period = read_last(rest)?;
    Some(Form::Timer { deadline, period })
}

// The form that a line `(G text` is.
fn read_generic(text: &[u8]) -> Option<Form>
    ensures { Reading (codes "(G " ++ text.now) result }
{
    let (file, rest) = read_file(text)?;
    let [b' ', letter, b')'] = rest else {
        return None;
    };
    let action = read_action(*letter)?;
    Some(Form::Generic { file, action })
}

// The post action that the letter stands for. No `TryFrom`: the trait and the type are both of other crates.
fn read_action(letter: u8) -> Option<PostAction>
    ensures { MatchOption result ((a : PostAction) → letter_of a ≢ letter) (λ a. letter_of a ≡ letter) }
{
    match char::from(letter) {
        'C' => Some(PostAction::Continue),
        'R' => Some(PostAction::Reregister),
        'D' => Some(PostAction::Disable),
        'X' => Some(PostAction::Remove),
        _ => None,
    }
}

// The form that a line `(W text` is.
fn read_wait(heap: Global, text: &[u8]) -> Result<Option<Form>, AllocError>
    ensures { IfOk result (λ o. Reading (codes "(W " ++ text.now) o) }
{
    let Some((clock, rest)) = read_number(text) else {
        return Ok(None);
    };
    let [b' ', b'(', rest @ ..] = rest else {
        return Ok(None);
    };
    Ok(read_files(heap, rest)?.map(|files| Form::Wait { clock, files }))
}

// The files of a text `file file ..))`, or None where it is no such text.
fn read_files(heap: Global, text: &[u8]) -> Result<Option<Vec<u32>>, AllocError>
    ensures { IfOk result (λ o. MatchOption o (NoList text.now) (λ files. Lists files.items text.now)) }
{
    let mut files = Vec::new(heap);
    if let b"))" = text {
        return Ok(Some(files));
    }
    let mut rest = text;
    // Where a file ends says where the next one begins, so no iterator has them beforehand.
    while let Some((file, after)) = read_file(rest) {
        files.push(file)?;
        match after {
            [b' ', more @ ..] => rest = more,
            b"))" => return Ok(Some(files)),
            _ => return Ok(None),
        }
    }
    Ok(None)
}

// A number of at most 32 bits, as a file has, and the text after it.
fn read_file(text: &[u8]) -> Option<(u32, &[u8])>
    ensures { MatchOption result (NoNumber 32 text.now) (λ p. Number 32 text.now p.0 p.1.now) }
{
    let (number, rest) = read_number(text)?;
    let file = u32::try_from(number).ok()?;
    Some((file, rest))
}

// The number at the front of the text, and the text after it, which goes on with no digit.
// A zero in front of other digits is refused, so that each number has one spelling.
pub fn read_number(text: &[u8]) -> Option<(u64, &[u8])>
    ensures { MatchOption result (NoNumber 64 text.now) (λ p. Number 64 text.now p.0 p.1.now) }
{
    let (digits, rest) = split_digits(text);
    match digits {
        [] | [b'0', _, ..] => None,
        _ => Some((number_of(digits)?, rest)),
    }
}

// The number that the digits write, where it fits 64 bits. No `parse`: it reads a `str`, and the bytes would be passed
// over once more to make one.
fn number_of(digits: &[u8]) -> Option<u64>
    ensures { SomeIff result (value digits.now < 2 ^ 64) (value digits.now) }
{
    digits.iter().try_fold(0u64, |number, digit| {
        number
            .checked_mul(10)?
            .checked_add(u64::from(digit.saturating_sub(b'0')))
    })
}

// The number that ends a line: the text is the number and the closing bracket.
fn read_last(text: &[u8]) -> Option<u64>
    ensures { MatchOption result (NoLast text.now) (λ n. Last n text.now) }
{
    match read_number(text)? {
        (number, [b')']) => Some(number),
        _ => None,
    }
}

// The digits that the text begins with, and the text after them.
fn split_digits(text: &[u8]) -> (&[u8], &[u8])
    ensures { Split text.now result.0.now result.1.now }
{
    let count = text
        .iter()
        .position(|byte| !byte.is_ascii_digit())
        .unwrap_or(text.len());
    text.split_at(count)
}

#[cfg(test)]
mod tests;
