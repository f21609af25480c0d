// Beginning from a guess. A standard whose scores never rise with the units held may guess what the
// creditors hold near an estate. If every unit of the guess scores above every unit that is still wanted,
// the guess is what single steps come to after as many units (`guess_is_dealt`), and these need not be made.
ghost use Rattle.std.specs.Prelude.{◌≡◌, ℕ, ◌≤◌, All, length, nat_le, IfSome, sum, slice_index};
ghost use Rattle.std.specs.List.{list_all, zip};
ghost use Rattle.rules.specs.Kept.{Heads, OverFirst, Small, UnderHeld, Underway};
ghost use Rattle.rules.specs.Theorems.{NeverRises};
ghost use Rattle.rules.specs.Unit.{dealt};

use crate::contest::{Contest, Standing};
use crate::dealing::higher;
use crate::standard::Standard;

// Whether nobody holds more than its claim.
fn within(held: &[u32], claims: &[u32]) -> bool
    ensures { result ≡ list_all (λ p. nat_le p.0 p.1) (zip held.now claims.now) }
{
    held.iter().zip(claims).all(|(units, claim)| units <= claim)
}

// The greatest of the scores.
fn greatest(heads: &[(u32, u32)]) -> (u32, u32)
    requires { All Small heads.now }
    ensures { Small result × OverFirst heads.now (length heads.now) result }
{
    let mut greatest = (0, 1);
    for head in heads {
        if higher(*head, greatest) {
            greatest = *head;
        }
    }
    greatest
}

impl<S: Standard> Contest<'_, S> {
    // The least score of a unit held.
    fn least_held(&self, held: &[u32]) -> (u32, u32)
        requires { length held.now ≡ length self.now.claims.list.now }
        ensures { Small result × UnderHeld (S.scored self.now.standard.now) self.now.claims.list.now held.now (length self.now.claims.list.now) result }
    {
        // no score is higher
        let mut least = (65_535, 1);
        for (k, units) in held.iter().enumerate() {
            if *units > 0 {
                let last = self.score(k, *units - 1);
                if higher(least, last) {
                    least = last;
                }
            }
        }
        least
    }

    // How many units a guess holds, if these are no more than `units` and it is what single steps come to.
    // Whose claim is met wants no unit, and its score of 0 is above none.
    fn check_guess(&self, units: u32, guess: &[u32], heads: &[(u32, u32)]) -> Option<u32>
        requires scores { Heads (S.scored self.now.standard.now) self.now.claims.list.now guess.now heads.now }
        requires falling { NeverRises (S.scored self.now.standard.now) }
        ensures { IfSome result (λ n. (n ≤ units) × (guess.now ≡ dealt (S.scored self.now.standard.now) self.now.claims.list.now n)) }
    {
        if !within(guess, self.claims.list) {
            return None;
        }
        let total = guess.iter().sum();
        if total > units {
            return None;
        }
        let least = self.least_held(guess);
        let greatest = greatest(&heads[..self.claims.list.len()]);
        // By `if`: after `then_some` the check leaves a goal.
        if higher(least, greatest) {
            Some(total)
        } else {
            None
        }
    }

    // Awards that the creditors hold after some of the units: a guess that passes the check, or nothing. How
    // many these are, and the scores of the next ones, stand in `begun`.
    pub(crate) fn begin(&self, units: u32, begun: &mut Standing, awards: &mut [u32])
        requires same { length awards.old ≡ length self.now.claims.list.now }
        requires room { length self.now.claims.list.now ≤ length begun.old.heads }
        ensures begun { Underway (S.scored self.now.standard.now) self.now.claims.list.now begun.new.units awards.new begun.new.heads }
        ensures order { begun.new.units ≤ units }
    {
        awards.fill(0);
        if self.standard.never_rises() {
            self.standard.guess(units, self.claims.list, awards);
            self.scores(awards, &mut begun.heads);
            if let Some(held) = self.check_guess(units, awards, &begun.heads) {
                begun.units = held;
                return;
            }
            awards.fill(0);
        }
        self.scores(awards, &mut begun.heads);
        begun.units = 0;
    }
}
