// Handing out units one at a time, each to the highest score. The score of every creditor's next unit is
// kept, so that a unit asks the standard for one score only.
ghost use Rattle.std.specs.Prelude.{◌≡◌, ℕ, ◌<◌, ◌≤◌, All, length, nat_lt, position, IfSome, slice_index};
ghost use Rattle.std.specs.List.{zip};
ghost use Rattle.rules.specs.Kept.{Heads, Small, Underway};
ghost use Rattle.rules.specs.Unit.{First, above, dealt, picked};

use crate::contest::{Contest, Standing};
use crate::standard::Standard;

// Whether p is the higher fraction. By hand: scores are tuples, which have another order of their own. That
// scores are small stands in the contracts, since a score is a pair of numbers by the form of the standard.
pub(crate) fn higher(p: (u32, u32), q: (u32, u32)) -> bool
    requires { (p.0 ≤ 65535) × (p.1 ≤ 65535) × (q.0 ≤ 65535) × (q.1 ≤ 65535) }
    ensures { result ≡ above p q }
{
    p.0 * q.1 > q.0 * p.1
}

// The first creditor that holds less than its claim.
fn first_short(claims: &[u32], held: &[u32]) -> Option<usize>
    ensures { result ≡ position (λ p. nat_lt p.1 p.0) (zip claims.now held.now) }
{
    claims
        .iter()
        .zip(held)
        .position(|(claim, units)| units < claim)
}

// The first score above one.
fn first_above(heads: &[(u32, u32)], least: (u32, u32)) -> Option<usize>
    requires kept { All Small heads.now }
    requires least { Small least }
    ensures { result ≡ position (λ p. above p least) heads.now }
{
    heads.iter().position(|head| higher(*head, least))
}

impl<S: Standard> Contest<'_, S> {
    // The creditor that the next unit goes to, if any holds less than its claim. Whose claim is met scores 0,
    // so that it is never higher.
    fn pick(&self, held: &[u32], heads: &[(u32, u32)]) -> Option<usize>
        requires { Heads (S.scored self.now.standard.now) self.now.claims.list.now held.now heads.now }
        ensures value { result ≡ picked (S.scored self.now.standard.now) self.now.claims.list.now held.now (length self.now.claims.list.now) }
        ensures first { IfSome result (First (S.scored self.now.standard.now) self.now.claims.list.now held.now) }
    {
        let n = self.claims.list.len();
        let mut best = first_short(self.claims.list, held)?;
        // From higher score to higher score, and no fold: its closure would have to know that the best so far
        // is one of the list.
        while let Some(behind) = first_above(&heads[best + 1..n], heads[best]) {
            best += 1 + behind;
        }
        Some(best)
    }

    // Hands out the units that are left, up to `units`.
    pub(crate) fn deal(&self, begun: &mut Standing, units: u32, awards: &mut [u32])
        requires begun { Underway (S.scored self.now.standard.now) self.now.claims.list.now begun.old.units awards.old begun.old.heads }
        requires order { begun.old.units ≤ units }
        ensures { awards.new ≡ dealt (S.scored self.now.standard.now) self.now.claims.list.now units }
    {
        for _unit in begun.units..units {
            if let Some(j) = self.pick(awards, &begun.heads) {
                awards[j] += 1;
                begun.heads[j] = self.score(j, awards[j]);
            }
        }
    }
}
