// The rules as queues: the order in which a debtor pays the units of the claims on it.
use crate::cause::Cause;
use crate::halt::Halt;
use crate::network::Network;
use crate::refusal::{Named, Refusal};
use crate::row::Row;
use std::alloc::{AllocError, Global};

#[derive(Clone, Copy)]
pub enum Rule {
    Priority,
    EqualAwards,
    Jefferson,
    DualOfEqualAwards,
    ClassesOverJefferson,
}

// Which rule each house has: those of the ring, or one and the same.
#[derive(Clone, Copy)]
pub enum Rules {
    Ring,
    Only(Rule),
}

impl Rules {
    pub fn of_house(self, house: u8) -> Rule {
        match self {
            Rules::Only(rule) => rule,
            Rules::Ring => match house {
                0 => Rule::Priority,
                1 => Rule::EqualAwards,
                2 => Rule::Jefferson,
                3 => Rule::DualOfEqualAwards,
                _ => Rule::ClassesOverJefferson,
            },
        }
    }

    // The queue of each member of a network; past the 32 places a member owes nothing.
    pub fn queues(self, heap: Global, network: &Network) -> Result<Vec<Vec<u8>>, AllocError> {
        let classes = network.classes();
        (0..network.count)
            .map(|debtor| match network.members.get(debtor) {
                Some(member) => {
                    let rule = self.of_house(member.house);
                    queue_of(heap, rule, &classes, member.claims.as_slice())
                }
                None => Ok(Vec::new(heap)),
            })
            .try_collect(heap)
    }
}

// The score by which a creditor competes for one more unit is its weight over units held + 1, so what goes
// first is the least of units held + 1 over weight. Weights are at most 10,000, and two such fractions that
// differ are at least 1/100,000,000 apart: so many times as large, their whole parts differ too.
fn rank(held: u32, weight: u32) -> u64 {
    (u64::from(held) + 1) * 100_000_000 / u64::from(weight.max(1))
}

// A creditor's unit with its place in the queue in front: a lower class goes before a higher one, then the
// lower rank, then the lower creditor.
#[derive(Clone, Copy, PartialEq, Eq, PartialOrd, Ord)]
struct Unit {
    class: u8,
    rank: u64,
    creditor: u8,
}

// The place of one more unit of a creditor's claim.
fn unit_of(rule: Rule, class: u8, creditor: u8, claim: u32, held: u32) -> Unit {
    let (class, rank) = match rule {
        Rule::Priority => (0, 0),
        Rule::EqualAwards | Rule::DualOfEqualAwards => (0, rank(held, 1)),
        Rule::Jefferson => (0, rank(held, claim)),
        Rule::ClassesOverJefferson => (class, rank(held, claim)),
    };
    Unit {
        class,
        rank,
        creditor,
    }
}

// The units of at most 32 creditors in the order in which they are paid. The dual of a rule goes without in the
// order in which the rule pays, so it pays in the opposite order.
fn queue_of(
    heap: Global,
    rule: Rule,
    classes: &[u8],
    claims: &[u32],
) -> Result<Vec<u8>, AllocError> {
    let mut units = Vec::new(heap);
    for ((creditor, class), claim) in (0..32u8).zip(classes).zip(claims) {
        for held in 0..*claim {
            units.push(unit_of(rule, *class, creditor, *claim, held))?;
        }
    }
    units.sort_unstable();
    if let Rule::DualOfEqualAwards = rule {
        units.reverse();
    }
    units.iter().map(|unit| unit.creditor).collect(heap)
}

// What each member gets of the first units of a queue.
pub(crate) fn front(queue: &[u8], units: u32) -> Row {
    let mut row = Row::default();
    for creditor in queue.iter().take(units as usize) {
        row.add_unit(usize::from(*creditor));
    }
    row
}

// Refuses a list of claims, or the room for awards on it.
fn admit(claims: &[u32], room: usize) -> Result<(), Refusal> {
    if claims.len() > 32 || room != claims.len() {
        return Err(Refusal::Rule {
            cause: Cause::ListLength,
            named: Named::Nobody,
        });
    }
    match (0..32u8).zip(claims).find(|(_, claim)| **claim > 10_000) {
        Some((creditor, _)) => Err(Refusal::Rule {
            cause: Cause::ListedClaimTooLarge,
            named: Named::Creditor(creditor),
        }),
        None => Ok(()),
    }
}

// Puts what a rule awards of an estate over a list of claims into a buffer; what is refused leaves it.
pub fn awards(
    heap: Global,
    rule: Rule,
    classes: &[u8],
    estate: u32,
    claims: &[u32],
    buffer: &mut [u32],
) -> Result<(), Halt> {
    admit(claims, buffer.len())?;
    let queue = queue_of(heap, rule, classes, claims)?;
    let row = front(queue.as_slice(), estate);
    for (award, units) in buffer.iter_mut().zip(row.as_slice()) {
        *award = *units;
    }
    Ok(())
}
