// The lines of a network's text.
ghost use Rattle.std.specs.Prelude.{Some};
ghost use Rattle.nettext.specs.Lines.{text_of};

use network::Member;
use std::fmt;
use std::str::{FromStr, SplitWhitespace};

#[derive(Clone, Copy)]
pub enum TextLine {
    // how many there are
    Members(u8),
    // a member's number, and what is entered of it
    Member(u8, Member),
    // debtor, creditor and units
    Claim(u8, u8, u32),
}

impl fmt::Display for TextLine {
    ghost output = { λ l. Some (text_of l) };

    fn fmt<W: fmt::Write>(&self, f: &mut fmt::Formatter<W>) -> fmt::Result {
        match *self {
            TextLine::Members(n) => write!(f, "members {n}"),
            TextLine::Member(member, entry) => {
                let Member {
                    house,
                    class,
                    endowment,
                } = entry;
                write!(
                    f,
                    "member {member} house {house} class {class} endowment {endowment}"
                )
            }
            TextLine::Claim(debtor, creditor, units) => write!(
                f,
                "claim {debtor} {creditor} {units}"
            ),
        }
    }
}

// The next word, as a number. (audit has the same line.)
fn number<T: FromStr<Err: Drop>>(words: &mut SplitWhitespace<'_>) -> Option<T> {
    words.next()?.parse::<T>().ok()
}

// The number behind a word that has to stand there. (An `if`: a `filter` would pass the word on only to drop it.)
fn named<T: FromStr<Err: Drop>>(words: &mut SplitWhitespace<'_>, name: &str) -> Option<T> {
    if words.next()? == name {
        number(words)
    } else {
        None
    }
}

fn member_line(words: &mut SplitWhitespace<'_>) -> Option<TextLine> {
    let member = number(words)?;
    let entry = Member {
        house: named(words, "house")?,
        class: named(words, "class")?,
        endowment: named(words, "endowment")?,
    };
    Some(TextLine::Member(member, entry))
}

// The line that a text is, if it is one.
pub(crate) fn parse_line(text: &str) -> Option<TextLine> {
    let mut words = text.split_whitespace();
    let line = match words.next()? {
        "members" => TextLine::Members(number(&mut words)?),
        "member" => member_line(&mut words)?,
        "claim" => TextLine::Claim(
            number(&mut words)?,
            number(&mut words)?,
            number(&mut words)?,
        ),
        _ => return None,
    };
    words.next().is_none().then_some(line)
}
