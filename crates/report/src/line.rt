// The lines that a network is reported by.
ghost use Rattle.std.specs.Prelude.{◌≡◌, IfOk, Some, string_bytes};
ghost use Rattle.report.specs.Lines.{printed, text_of};

use crate::writing::push_line;
use network::Fault;
use std::alloc::{AllocError, Global};
use std::fmt;

#[derive(Clone, Copy)]
pub enum Line {
    // debtor, creditor and units
    Paid(u8, u8, u32),
    // member and units
    Equity(u8, u32),
    // the member
    Default(u8),
    // rounds that moved units, units moved, members passed over
    Rounds(u32, u32, u8),
    Fault(Fault),
    TooLong,
}

impl fmt::Display for Line {
    ghost output = { λ l. Some (text_of l) };

    fn fmt<W: fmt::Write>(&self, f: &mut fmt::Formatter<W>) -> fmt::Result {
        match *self {
            Line::Paid(debtor, creditor, units) => write!(f, "paid {debtor} {creditor} {units}"),
            Line::Equity(member, units) => write!(f, "equity {member} {units}"),
            Line::Default(member) => write!(f, "default {member}"),
            Line::Rounds(rounds, units, passed) => write!(f, "rounds {rounds} {units} {passed}"),
            Line::Fault(fault) => write!(f, "{fault}"),
            Line::TooLong => write!(f, "too long"),
        }
    }
}

// The lines one below the other.
pub fn print(heap: Global, lines: &[Line]) -> Result<String, AllocError>
    ensures { IfOk result (λ text. string_bytes text ≡ printed lines.now) }
{
    let mut text = String::new(heap);
    for line in lines {
        push_line(heap, &mut text, *line)?;
    }
    Ok(text)
}
