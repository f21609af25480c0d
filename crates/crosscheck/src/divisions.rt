// Divisions of an estate, straight by the rulebooks.
use crate::both::{answered, read_both};
use crate::dice::Dice;
use crate::shapes::{Scale, random_network};
use crate::tally::Tally;
use rules::{RingRulebook, Rulebook, ring_rulebook};
use second::{Rules, awards};
use std::alloc::{AllocError, Global};
use std::fmt;

// What is to be divided, by the rule of which house, and for how many awards there is room.
#[derive(Drop)]
struct Division {
    house: u8,
    estate: u32,
    claims: Vec<u32>,
    room: usize,
}

// What stands in the buffer before a division; a refused one leaves it.
const BEFORE: u32 = 7;

// Numbers to the end of a line, each behind a space.
#[derive(Clone, Copy)]
struct Numbers<'a>(&'a [u32]);

impl fmt::Display for Numbers<'_> {
    fn fmt<W: fmt::Write>(&self, f: &mut fmt::Formatter<W>) -> fmt::Result {
        for number in self.0 {
            write!(f, " {number}")?;
        }
        writeln!(f)
    }
}

// The division itself, to be told from others.
impl fmt::Display for Division {
    fn fmt<W: fmt::Write>(&self, f: &mut fmt::Formatter<W>) -> fmt::Result {
        let (house, estate) = (self.house, self.estate);
        let claims = Numbers(self.claims.as_slice());
        write!(f, "house {house} estate {estate} claims{claims}")
    }
}

fn random_claim(dice: &mut Dice) -> u32 {
    match dice.between(1, 200) {
        1 => 10_001,
        2 => 10_000,
        3..=20 => 0,
        _ => dice.between(1, 30),
    }
}

impl Division {
    fn random(heap: Global, dice: &mut Dice) -> Result<Division, AllocError> {
        let most = if dice.once_in(4) { 33 } else { 6 };
        let claims: Vec<u32> = (0..dice.between(0, most))
            .map(|_| random_claim(dice))
            .collect(heap)?;
        let estate = match dice.between(1, 10) {
            1 => u32::MAX,
            2 => dice.between(0, 400),
            _ => dice.between(0, 60),
        };
        let room = if dice.once_in(50) { 4 } else { claims.len() };
        Ok(Division {
            house: dice.byte(0, 6),
            estate,
            claims,
            room,
        })
    }

    // The division, why it is refused if it is, and what stands in the buffer afterwards.
    fn text<E: fmt::Display + Drop, F: FnOnce(&mut [u32]) -> Result<Result<(), E>, AllocError>>(
        &self,
        heap: Global,
        divide: F,
    ) -> Result<String, AllocError>
        requires { F.IsAlwaysCallable divide }
    {
        let mut text = self.to_string(heap)?;
        let mut buffer = vec![in heap; BEFORE; self.room]?;
        if let Err(refusal) = divide(buffer.as_mut_slice())? {
            write!(text, "{refusal}")?;
        }
        let numbers = Numbers(buffer.as_slice());
        write!(text, "{numbers}")?;
        Ok(text)
    }

    fn engine_text(&self, heap: Global, rulebook: &RingRulebook) -> Result<String, AllocError> {
        let claims = self.claims.as_slice();
        self.text(heap, |buffer| {
            Ok(rulebook.awards(self.house, self.estate, claims, buffer))
        })
    }

    fn expected_text(&self, heap: Global, classes: &[u8]) -> Result<String, AllocError> {
        let claims = self.claims.as_slice();
        let rule = Rules::Ring.of_house(self.house);
        self.text(heap, |buffer| {
            answered(awards(heap, rule, classes, self.estate, claims, buffer))
        })
    }
}

// Random divisions by the ring's rulebook of a network of 32 members.
pub fn compare_divisions(dice: &mut Dice, tally: &mut Tally, count: u32) -> Result<(), AllocError> {
    let heap = tally.heap;
    let scale = Scale {
        n: 32,
        richest: 0,
        largest: 1,
    };
    let file = random_network(heap, dice, scale)?;
    let Some((network, draft)) = read_both(tally, file.as_slice()) else {
        return Ok(());
    };
    let rulebook = ring_rulebook(draft.figures());
    let classes = network.classes();
    for _division in 0..count {
        let division = Division::random(heap, dice)?;
        let text = division.engine_text(heap, &rulebook);
        let expected = division.expected_text(heap, &classes);
        tally.compare(file.as_slice(), text, expected);
    }
    Ok(())
}
