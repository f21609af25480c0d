// Networks at the limits, and just past them.
use crate::clearings::compare_made;
use crate::records::Records;
use crate::tally::Tally;
use std::alloc::{AllocError, Global};

// Members all alike, each with a claim on so many that come before it in the ring.
#[derive(Clone, Copy)]
struct Alike {
    n: u8,
    house: u8,
    class: u8,
    endowment: u32,
    units: u32,
    dense: bool,
}

const TWO: Alike = Alike {
    n: 2,
    house: 4,
    class: 0,
    endowment: 1,
    units: 1,
    dense: true,
};

impl Alike {
    fn file(self, heap: Global) -> Result<Vec<u8>, AllocError> {
        let mut file = Records::new(heap);
        file.push_network(self.n)?;
        for member in 0..self.n {
            file.push_member(member, self.house, self.class, self.endowment)?;
        }
        for debtor in 0..self.n {
            for creditor in 0..self.n {
                let next = creditor == debtor.saturating_add(1);
                if debtor != creditor && (self.dense || next) {
                    file.push_claim(debtor, creditor, self.units)?;
                }
            }
        }
        file.finish()
    }

    fn compare(self, tally: &mut Tally) {
        let file = self.file(tally.heap);
        compare_made(tally, file);
    }
}

// The number of members and the length of the file.
fn compare_sizes(tally: &mut Tally) {
    for n in [0, 1, 2, 31, 32, 33, 255] {
        Alike {
            n,
            dense: false,
            ..TWO
        }
        .compare(tally);
    }
    for length in [0, 1, 65_536, 65_537] {
        let file = vec![in tally.heap; 0u8; length];
        compare_made(tally, file);
    }
}

// What is entered of a member, and of a claim.
fn compare_entries(tally: &mut Tally) {
    for class in [0, 1, 7, 8, 255] {
        Alike { class, ..TWO }.compare(tally);
    }
    for endowment in [0, 999_999, 1_000_000, 1_000_001, u32::MAX] {
        Alike { endowment, ..TWO }.compare(tally);
    }
    for units in [0, 1, 9_999, 10_000, 10_001, 65_536, u32::MAX] {
        Alike { units, ..TWO }.compare(tally);
    }
}

// All of the largest at once, under every rule; where every member claims of every other, under priority.
fn compare_largest(tally: &mut Tally) {
    let largest = Alike {
        n: 32,
        house: 0,
        class: 7,
        endowment: 1_000_000,
        units: 10_000,
        dense: true,
    };
    largest.compare(tally);
    for house in 0..=5u8 {
        Alike {
            house,
            dense: false,
            ..largest
        }
        .compare(tally);
        Alike {
            n: 4,
            house,
            endowment: 20_000,
            ..largest
        }
        .compare(tally);
    }
}

pub fn compare_limits(tally: &mut Tally) {
    compare_sizes(tally);
    compare_entries(tally);
    compare_largest(tally);
}
