// What is due of a member's estate, and what a settle would make of its row.
ghost use Rattle.std.specs.Prelude.{◌≡◌, nat_lt, zip, slice_index};
ghost use Rattle.std.specs.List.{list_any};
ghost use Rattle.clearing.specs.Networks.{any};
ghost use Rattle.clearing.specs.Settling.{would_pay};
ghost use Rattle.book.specs.Seats.{WouldSettle};
ghost use Rattle.book.specs.Views.{DueRow, division_of, estate_of, net_of, payments_of};

use crate::rows::row_total;
use crate::seat::Seat;
use crate::settlement::Settlement;
use rules::Rulebook;

// Whether an entry is above the one beside it.
fn some_above(row: &[u32], due: &[u32]) -> bool
    ensures { result ≡ list_any (λ p. nat_lt p.1 p.0) (zip row.now due.now) }
{
    row.iter().zip(due).any(|(paid, due)| due < paid)
}

impl<'a> Seat<'a> {
    // What the rulebook awards each creditor of the member's estate, which the caller gives.
    pub(crate) fn due_row<R: Rulebook>(&self, rulebook: &R, estate: u32) -> [u32; 32]
        requires { estate ≡ estate_of self.now.book.now self.now.at }
        ensures { DueRow (R.awarded rulebook.now) self.now.book.now self.now.at result }
    {
        let mut row = [0; 32];
        let n = self.book.figures.n as usize;
        let house = self.book.figures.members[self.at].house;
        let claims = &self.book.figures.claims[self.at][..n];
        let _ = rulebook.awards(house, estate, claims, &mut row[..n]);
        row
    }

    // Whether an entry of its row is above what its due row has there.
    pub(crate) fn recedes(&self, due: &[u32; 32]) -> bool
        ensures { result ≡ any self.now.book.now.figures.n (λ j. nat_lt (slice_index due.now j) (payments_of self.now.book.now self.now.at j)) }
    {
        let n = self.book.figures.n as usize;
        let row = &self.row()[..n];
        some_above(row, &due[..n])
    }

    // Whether its settle would pay.
    pub(crate) fn would_pay<R: Rulebook>(&self, rulebook: &R) -> bool
        ensures { result ≡ would_pay (net_of self.now.book.now) (division_of (R.awarded rulebook.now) self.now.book.now) (payments_of self.now.book.now) self.now.at }
    {
        let n = self.book.figures.n as usize;
        let due = self.due_row(rulebook, self.estate());
        !self.recedes(&due) && some_above(&due[..n], &self.row()[..n])
    }

    // What a settle would do at the member's estate, which the caller gives; none if it has receded.
    pub(crate) fn settlement<R: Rulebook>(&self, rulebook: &R, estate: u32) -> Option<Settlement>
        requires { estate ≡ estate_of self.now.book.now self.now.at }
        ensures { WouldSettle (R.awarded rulebook.now) self.now.book.now self.now.at result }
    {
        let due = self.due_row(rulebook, estate);
        if self.recedes(&due) {
            return None;
        }
        Some(Settlement {
            units: row_total(&due, self.book.figures.n) - self.outlay(),
            row: due,
        })
    }
}
