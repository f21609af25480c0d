// Lines put behind a text. The lines of a sheet are many, so their numbers are written digit by digit, which
// is some three times as quick as a format.
ghost use Rattle.std.specs.Prelude.{◌≡◌, ◌+◌, ◌<◌, [], ◌∷◌, ◌++◌, map, string_bytes, codes, decimal, OnOk};
ghost use Rattle.network.specs.Words.{spaced};
ghost use Rattle.report.specs.Lines.{text_of};

use crate::line::Line;
use std::alloc::{AllocError, Global};

fn push_digit(text: &mut String, digit: u8) -> Result<(), AllocError>
    requires { digit < 10 }
    ensures { OnOk result (string_bytes text.new ≡ string_bytes text.old ++ (48 + digit) ∷ []) }
{
    text.push(char::from(b'0' + digit))
}

// The decimal digits of a number.
fn push_number(text: &mut String, n: u32) -> Result<(), AllocError>
    ensures { OnOk result (string_bytes text.new ≡ string_bytes text.old ++ decimal n) }
{
    if n < 10 {
        return push_digit(text, n as u8);
    }
    push_number(text, n / 10)?;
    push_digit(text, (n % 10) as u8)
}

// A word, and numbers behind it.
fn push_numbers(text: &mut String, word: &str, numbers: &[u32]) -> Result<(), AllocError>
    ensures { OnOk result (string_bytes text.new ≡ string_bytes text.old ++ spaced word.now (map decimal numbers.now)) }
{
    text.push_str(word)?;
    for n in numbers {
        text.push(' ')?;
        push_number(text, *n)?;
    }
    Ok(())
}

// A line, without its end.
fn push_words(heap: Global, text: &mut String, line: Line) -> Result<(), AllocError>
    ensures { OnOk result (string_bytes text.new ≡ string_bytes text.old ++ text_of line) }
{
    match line {
        Line::Paid(debtor, creditor, units) => {
            push_numbers(text, "paid", &[debtor as u32, creditor as u32, units])
        }
        Line::Equity(member, units) => push_numbers(text, "equity", &[member as u32, units]),
        Line::Default(member) => push_numbers(text, "default", &[member as u32]),
        Line::Rounds(rounds, units, passed) => {
            push_numbers(text, "rounds", &[rounds, units, passed as u32])
        }
        Line::Fault(_) | Line::TooLong => {
            let shown = format!(in heap; "{line}")?;
            text.push_str(shown.as_str())
        }
    }
}

// A line and its end.
pub(crate) fn push_line(heap: Global, text: &mut String, line: Line) -> Result<(), AllocError>
    ensures { OnOk result (string_bytes text.new ≡ string_bytes text.old ++ (text_of line ++ codes "\n")) }
{
    push_words(heap, text, line)?;
    text.push('\n')?;
    Ok(())
}
