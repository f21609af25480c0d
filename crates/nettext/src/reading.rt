// Reading a network's text into a draft. What stands behind a # is a comment, and empty lines are passed over.
ghost use Rattle.std.specs.Prelude.{◌≡◌, OnErr};
ghost use Rattle.nettext.specs.declared.reading.Slip.TheVariants.{Refused};

use crate::line::{TextLine, parse_line};
use network::{Draft, Fault, MemberCount};
use std::fmt;

// What is wrong with a line.
#[derive(Clone, Copy)]
pub enum Slip {
    // it is none of a network's lines
    NoLine,
    // the number of members comes first, and once
    Count,
    // the members come in the order of their numbers
    Member,
    // the claim was entered before
    Again,
    // the text ends before the last member
    Missing,
    // the draft refuses the entry
    Refused(Fault),
}

// A text that is not read: the number of the line, and what is wrong with it.
#[derive(Clone, Copy)]
pub struct BadLine {
    pub number: usize,
    pub slip: Slip,
}

impl From<Fault> for Slip {
    ghost from_gives = { λ fault slip. slip ≡ Refused fault };

    fn from(fault: Fault) -> Slip {
        Slip::Refused(fault)
    }
}

impl fmt::Display for Slip {
    fn fmt<W: fmt::Write>(&self, f: &mut fmt::Formatter<W>) -> fmt::Result {
        match *self {
            Slip::NoLine => f.write_str("neither members, member nor claim"),
            Slip::Count => f.write_str("the number of members comes first, and once"),
            Slip::Member => f.write_str("not the next member"),
            Slip::Again => f.write_str("the claim was entered before"),
            Slip::Missing => f.write_str("members are missing"),
            // (a line of a text is no record of a file, whatever byte the fault has)
            Slip::Refused(fault) => write!(f, "{}", fault.at_byte(0)),
        }
    }
}

impl fmt::Display for BadLine {
    fn fmt<W: fmt::Write>(&self, f: &mut fmt::Formatter<W>) -> fmt::Result {
        let number = self.number;
        let slip = self.slip;
        write!(f, "line {number}: {slip}")
    }
}

// A line without its comment.
fn content(line: &str) -> &str {
    line.split_once('#')
        .map_or(line, |(before, _)| before)
        .trim()
}

// The number of members, from the line that says it.
fn count_line(line: &str) -> Result<MemberCount, Slip> {
    match parse_line(line) {
        Some(TextLine::Members(n)) => Ok(MemberCount::new(n)?),
        _ => Err(Slip::Count),
    }
}

// The members that the text says there are, in its first line that is not empty.
pub fn count_text(text: &str) -> Result<MemberCount, BadLine> {
    // lines are numbered from 1, and `enumerate` counts from 0
    let mut lines = text.lines().map(content).enumerate();
    let (i, line) = lines.find(|(_, line)| !line.is_empty()).ok_or(BadLine {
        number: 1,
        slip: Slip::Count,
    })?;
    let number = i.saturating_add(1);
    count_line(line).map_err(|slip| BadLine { number, slip })
}

// Whether a claim stands in a draft.
fn has_claim(draft: &Draft, debtor: u8, creditor: u8) -> bool {
    let row = draft.figures().claims.get(debtor as usize);
    let claim = row.and_then(|row| row.get(creditor as usize));
    claim.is_some_and(|units| *units > 0)
}

// Enters one line, and answers the member that is due behind it. None is due while the number of members is not said.
fn enter(draft: &mut Draft, due: Option<u8>, line: &str) -> Result<u8, Slip> {
    match (due, parse_line(line).ok_or(Slip::NoLine)?) {
        (None, TextLine::Members(n)) if n == draft.count().get() => Ok(0),
        (None, _) | (_, TextLine::Members(_)) => Err(Slip::Count),
        (Some(next), TextLine::Member(member, entry)) => {
            if member != next {
                return Err(Slip::Member);
            }
            draft.enter_member(member, entry)?;
            Ok(next.saturating_add(1))
        }
        (Some(next), TextLine::Claim(debtor, creditor, units)) => {
            if has_claim(draft, debtor, creditor) {
                return Err(Slip::Again);
            }
            draft.enter_claim(debtor, creditor, units)?;
            Ok(next)
        }
    }
}

// Sets every entry of a draft of as many members from a text. The whole text is checked before the draft
// is altered.
pub fn load_text(draft: &mut Draft, text: &str) -> Result<(), BadLine>
    ensures { OnErr result (draft.new ≡ draft.old) }
{
    let mut next = Draft::new(draft.count());
    let mut due = None;
    let mut number = 0usize;
    for line in text.lines().map(content) {
        number = number.saturating_add(1);
        if !line.is_empty() {
            due = Some(enter(&mut next, due, line).map_err(|slip| BadLine { number, slip })?);
        }
    }
    if due != Some(draft.count().get()) {
        return Err(BadLine {
            number,
            slip: Slip::Missing,
        });
    }
    *draft = next;
    Ok(())
}
