// A contest for units, and the score of every creditor's next unit.
ghost use Rattle.std.specs.Prelude.{◌≡◌, ◌<◌, ◌≤◌, length, slice_index};
ghost use Rattle.rules.specs.Kept.{Answers, Heads};

use crate::claims::ClaimList;
use crate::standard::Standard;

// Claims, and the standard by which their creditors compete for units.
#[derive(Drop)]
pub(crate) struct Contest<'a, S> {
    pub(crate) standard: &'a S,
    pub(crate) claims: ClaimList<'a>,
}

// How many units are handed out, and the score of every creditor's next unit. An array, since the rules have
// no heap.
#[derive(Drop)]
pub(crate) struct Standing {
    pub(crate) units: u32,
    pub(crate) heads: [(u32, u32); 32],
}

impl<S: Standard> Contest<'_, S> {
    // The score of a creditor's next unit, where it holds so many.
    pub(crate) fn score(&self, creditor: usize, held: u32) -> (u32, u32)
        requires { creditor < length self.now.claims.list.now }
        ensures { Answers (S.scored self.now.standard.now) creditor (slice_index self.now.claims.list.now creditor) held result }
    {
        let claim = self.claims.list[creditor];
        self.standard.score(creditor as u8, claim, held)
    }

    // Scores every creditor's next unit, in place: an array that is answered is copied.
    pub(crate) fn scores(&self, held: &[u32], heads: &mut [(u32, u32)])
        requires same { length held.now ≡ length self.now.claims.list.now }
        requires room { length self.now.claims.list.now ≤ length heads.old }
        ensures { Heads (S.scored self.now.standard.now) self.now.claims.list.now held.now heads.new }
    {
        for (k, units) in held.iter().enumerate() {
            // By index: of what a `zip` over `iter_mut` lends, a proof knows only the length.
            heads[k] = self.score(k, *units);
        }
    }
}
