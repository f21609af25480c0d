// Visits to the members, and what is kept of them so that close settles only whom a change can concern.
// What a settle does depends on the member's row and estate. Its row is as its last visit left it, since
// only its own settle writes it; so at the estate of that visit a settle would move nothing, or pass the
// member over again (`stays_settled` and `stays_receded` of proofs/Visiting.antt).
ghost use Rattle.std.specs.Prelude.{◌≡◌, ℕ, ◌<◌, ◌≤◌, slice_index};
ghost use Rattle.book.specs.Calls.{Settles};
ghost use Rattle.book.specs.Rulebooks.{Meaning};
ghost use Rattle.book.specs.Visits.{Credited, Fresh, Kept, answer_of, tally_at};

use crate::book::Book;
use crate::seat::Seat;
use crate::settlement::Settlement;
use rules::Rulebook;

// How a member's last visit ended, and at what estate.
#[derive(Clone, Copy)]
pub(crate) enum Visit {
    Never,
    Settled(u32),
    PassedOver(u32),
}

// What is kept of a member: the estate that it has now, kept up rather than summed anew, and its last visit. (That it
// is kept of this very book stands in the contracts: beside the book's `&mut` a struct cannot hold the fact.)
#[derive(Clone, Copy)]
pub(crate) struct Tally {
    pub(crate) estate: u32,
    pub(crate) last: Visit,
}

// Adds to the estate of each of n creditors what a row has more than before.
fn credit(tallies: &mut [Tally; 32], before: &[u32; 32], after: &[u32; 32], n: u8)
    requires few { n ≤ 32 }
    requires low { (j : ℕ) → j < n → (tally_at tallies.old j).estate ≤ 1320000 }
    requires small { (j : ℕ) → slice_index after.now j ≤ 10000 }
    requires risen { (j : ℕ) → j < n → slice_index before.now j ≤ slice_index after.now j }
    ensures { Credited tallies.old before.now after.now n tallies.new }
{
    // By index: three tables are walked side by side, and of what a `zip` over `iter_mut` lends, a proof knows only the length.
    for j in 0..n as usize {
        tallies[j].estate += after[j] - before[j];
    }
}

impl Seat<'_> {
    // The estate as it is, and no visit yet.
    fn unvisited(&self) -> Tally
        ensures { Fresh self.now.book.now self.now.at result }
    {
        Tally {
            estate: self.estate(),
            last: Visit::Never,
        }
    }
}

impl Book {
    // The estates as they are, and nobody visited yet.
    pub(crate) fn no_visits(&self) -> [Tally; 32]
        ensures { (A : Meaning) → Kept A self.now result }
    {
        let mut tallies = [Tally {
            estate: 0,
            last: Visit::Never,
        }; 32];
        // By index, the members alone: a `from_fn` goes through all 32 seats, which takes a small network longer than its round.
        for m in 0..self.figures.n as usize {
            tallies[m] = self.seat(m).unvisited();
        }
        tallies
    }

    // Settles a member at its kept estate, adds what it pays to its creditors' estates, and notes how the
    // visit ended.
    fn settle_anew<R: Rulebook>(
        &mut self,
        rulebook: &R,
        tallies: &mut [Tally; 32],
        member: u8,
    ) -> Option<u32>
        requires member { member < self.old.figures.n }
        requires kept { Kept (R.awarded rulebook.now) self.old tallies.old }
        ensures settles { Settles (R.awarded rulebook.now) self.old member (answer_of member result) self.new }
        ensures kept { Kept (R.awarded rulebook.now) self.new tallies.new }
    {
        let m = member as usize;
        let estate = tallies[m].estate;
        let seat = self.seat(m);
        let Some(settlement) = seat.settlement(rulebook, estate) else {
            tallies[m].last = Visit::PassedOver(estate);
            return None;
        };
        let Settlement { units, row } = settlement;
        credit(tallies, seat.row(), &row, self.figures.n);
        tallies[m].last = Visit::Settled(estate);
        self.paid[m] = row;
        Some(units)
    }

    // Settles a member, but leaves it alone at the estate of its last visit. Answers the units moved, or
    // none if the member has receded.
    pub(crate) fn visit<R: Rulebook>(
        &mut self,
        rulebook: &R,
        tallies: &mut [Tally; 32],
        member: u8,
    ) -> Option<u32>
        requires member { member < self.old.figures.n }
        requires kept { Kept (R.awarded rulebook.now) self.old tallies.old }
        ensures settles { Settles (R.awarded rulebook.now) self.old member (answer_of member result) self.new }
        ensures kept { Kept (R.awarded rulebook.now) self.new tallies.new }
    {
        let Tally { estate, last } = tallies[member as usize];
        match last {
            Visit::Settled(then) if then == estate => Some(0),
            Visit::PassedOver(then) if then == estate => None,
            _ => self.settle_anew(rulebook, tallies, member),
        }
    }
}
