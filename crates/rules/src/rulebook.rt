// What a rulebook is: one call, its meaning, and the laws that it keeps.
ghost use Rattle.std.specs.Prelude.{◌≡◌, ℕ, length};
ghost use Rattle.network.specs.Answers.{Gives};
ghost use Rattle.rules.specs.Claims.{Admitted, awards_fault};
ghost use Rattle.rules.specs.Laws.{Rule, Lawful};

use network::{Cause, Fault, Layer};

// A rulebook divides an estate by the rule of a house. It never changes.
pub trait Rulebook {
    // The rule of each house: what every creditor is awarded, by estate and claims.
    ghost awarded: { Self → ℕ → Rule };

    // Fills `awards` with one award for each claim. (Four parameters and no struct: they are the one call that
    // every rulebook has.)
    fn awards(
        &self,
        house: u8,
        estate: u32,
        claims: &[u32],
        awards: &mut [u32],
    ) -> Result<(), Fault>
        ensures { Gives (awards_fault claims.now (length awards.old))
            (λ _. awards.new ≡ awarded self.now house estate claims.now)
            (awards.new ≡ awards.old) result };

    ghost lawful: { (s : Self) (house : ℕ) → Lawful (awarded s house) };
}

// The checks that every rulebook makes before it divides: a list of at most 32 claims, room for as many
// awards, and no claim above 10,000.
pub fn check_claims(claims: &[u32], room: usize) -> Result<(), Fault>
    ensures { Gives (awards_fault claims.now room)
        (λ _. Admitted claims.now × (room ≡ length claims.now))
        (Unit {0}) result }
{
    if claims.len() > 32 || claims.len() != room {
        return Err(Fault::of_nobody(Layer::Rule, Cause::ListLength));
    }
    match claims.iter().position(|claim| *claim > 10_000) {
        Some(first) => Err(Fault::of_creditor(
            Layer::Rule,
            Cause::ListedClaimTooLarge,
            first as u8,
        )),
        None => Ok(()),
    }
}
