// Random networks of many shapes, as files.
use crate::dice::Dice;
use crate::records::Records;
use std::alloc::{AllocError, Global};

// Who claims of whom.
#[derive(Clone, Copy)]
enum Shape {
    Ring,
    Star,
    Sparse,
    Dense,
}

impl Shape {
    fn random(dice: &mut Dice) -> Shape {
        match dice.between(1, 4) {
            1 => Shape::Ring,
            2 => Shape::Star,
            3 => Shape::Sparse,
            _ => Shape::Dense,
        }
    }

    fn links(self, dice: &mut Dice, n: u8, debtor: u8, creditor: u8) -> bool {
        match self {
            Shape::Ring => {
                let next = debtor.saturating_add(1);
                creditor == if next < n { next } else { 0 }
            }
            Shape::Star => debtor == 0 || creditor == 0,
            Shape::Sparse => dice.once_in(4),
            Shape::Dense => true,
        }
    }
}

// How many members a network has, and its largest endowment and claim.
#[derive(Clone, Copy)]
pub struct Scale {
    pub n: u8,
    pub richest: u32,
    pub largest: u32,
}

impl Scale {
    // Any number of members, and smaller claims where there are more of them.
    pub fn random(dice: &mut Dice) -> Scale {
        let (n, most) = match dice.between(1, 8) {
            1 => (1, 1),
            2 => (2, 60),
            3..=6 => (dice.byte(3, 8), 60),
            7 => (dice.byte(9, 16), 12),
            _ => (dice.byte(17, 32), 4),
        };
        let richest = match dice.between(1, 4) {
            1 => 0,
            2 => 10,
            3 => 200,
            _ => 1_000_000,
        };
        Scale {
            n,
            richest,
            largest: dice.between(1, most),
        }
    }
}

fn push_random_member(
    dice: &mut Dice,
    file: &mut Records,
    member: u8,
    richest: u32,
) -> Result<(), AllocError> {
    let house = match dice.byte(0, 7) {
        7 => 255,
        house => house,
    };
    let class = dice.byte(0, 7);
    let endowment = if dice.once_in(3) {
        0
    } else {
        dice.between(0, richest)
    };
    file.push_member(member, house, class, endowment)
}

pub fn random_network(heap: Global, dice: &mut Dice, scale: Scale) -> Result<Vec<u8>, AllocError> {
    let mut file = Records::new(heap);
    let shape = Shape::random(dice);
    file.push_network(scale.n)?;
    for member in 0..scale.n {
        push_random_member(dice, &mut file, member, scale.richest)?;
    }
    for debtor in 0..scale.n {
        for creditor in 0..scale.n {
            if debtor != creditor && shape.links(dice, scale.n, debtor, creditor) {
                file.push_claim(debtor, creditor, dice.between(1, scale.largest))?;
            }
        }
    }
    file.finish()
}

// Gives so many random networks to a closure, each of a scale that is drawn for it; for one there may be no memory.
pub(crate) fn each_network<S, F>(
    heap: Global,
    dice: &mut Dice,
    count: u32,
    scale: S,
    mut visit: F,
) -> Result<(), AllocError>
where
    S: Fn(&mut Dice) -> Scale,
    F: FnMut(&mut Dice, Result<Vec<u8>, AllocError>) -> Result<(), AllocError>,
    requires scales { S.IsAlwaysCallable scale }
    requires visits { F.IsAlwaysCallable visit }
{
    for _network in 0..count {
        let scale = scale(dice);
        let file = random_network(heap, dice, scale);
        visit(dice, file)?;
    }
    Ok(())
}
