// A standard of another author with a guess that is wrong.
ghost use Rattle.rules.specs.Standards.{equal_score};
ghost use Rattle.std.proofs.Common.{rules};

use rules::{EqualAwards, Standard};

// The scores of equal awards, with a guess of twice as many units for everyone, which the unit rule has to
// turn down wherever it is not what single steps come to.
#[derive(Clone, Copy)]
pub struct Misled;

impl Standard for Misled {
    const MAX_NUMERATOR: u32 = 1;

    const MAX_DENOMINATOR: u32 = 10_000;

    ghost MAX_NUMERATOR = { 1 };

    ghost MAX_DENOMINATOR = { 10000 };

    ghost scored = { λ _. equal_score };

    ghost small = { Prim.search rules };

    ghost measured = { Prim.search rules };

    fn score(&self, creditor: u8, claim: u32, held: u32) -> (u32, u32) {
        EqualAwards.score(creditor, claim, held)
    }

    fn never_rises(&self) -> bool {
        EqualAwards.never_rises()
    }

    fn guess(&self, units: u32, claims: &[u32], awards: &mut [u32]) {
        EqualAwards.guess(units, claims, awards);
        for award in awards.iter_mut() {
            *award = award.wrapping_mul(2);
        }
    }
}
