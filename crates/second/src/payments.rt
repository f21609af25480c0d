// Payments from each debtor to each creditor.
use crate::row::{BLANK, Row};

// A row for each debtor; past the last debtor they are empty. Of a fixed width, so that opening a ledger and finding
// the least payments cannot run out of memory.
#[derive(Clone, Copy, Default)]
pub struct Payments {
    pub rows: [Row; 32],
}

impl Payments {
    // What a debtor has paid; one past the rows has paid nothing.
    pub(crate) fn row(&self, debtor: usize) -> &Row {
        self.rows.get(debtor).unwrap_or(&BLANK)
    }

    // What a creditor has of everyone.
    pub(crate) fn total_to(&self, creditor: usize) -> u32 {
        self.rows
            .iter()
            .map(|row| row.at(creditor))
            .fold(0, u32::saturating_add)
    }
}
