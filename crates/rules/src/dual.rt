// The dual of a rulebook: what is lacking is divided as the rulebook divides an estate.
ghost use Rattle.std.specs.Prelude.{◌≡◌, ℕ, ◌≤◌, length, slice_index};
ghost use Rattle.rules.specs.Dual.{dual};
ghost use Rattle.rules.specs.Places.{minus};
ghost use Rattle.rules.specs.Theorems.{DualOf};
ghost use Rattle.rules.specs.DualLaws.{dual_laws};

use crate::claims::ClaimList;
use crate::rulebook::Rulebook;
use network::Fault;

// A layer over a rulebook: each creditor gets its claim less what the rulebook below awards it from what
// the estate lacks to meet all claims.
#[derive(Drop)]
pub struct Dual<R> {
    below: R,
}

impl<R: Rulebook> Dual<R> {
    // The creditors go without what the rulebook below awards from the shortfall, and the dual of the dual
    // is that rulebook again.
    pub fn new(below: R) -> Dual<R>
        ensures made { result.below ≡ below }
        ensures losses { (house : ℕ) → DualOf (R.Rulebook.awarded below house) }
    {
        Dual { below }
    }
}

// Turns what each creditor goes without into what it gets.
fn take_from(claims: &[u32], awards: &mut [u32])
    requires same { length awards.old ≡ length claims.now }
    requires within { (k : ℕ) → slice_index awards.old k ≤ slice_index claims.now k }
    ensures { awards.new ≡ minus claims.now awards.old }
{
    // Numbered and not zipped: of what a `zip` over `iter_mut` lends, a proof knows only the length.
    for (k, award) in awards.iter_mut().enumerate() {
        *award = claims[k] - *award;
    }
}

impl<R: Rulebook> Rulebook for Dual<R> {
    ghost awarded = { λ s house. dual (R.Rulebook.awarded s.below house) };

    ghost lawful = { λ s house. dual_laws _ (R.Rulebook.lawful s.below house) };

    fn awards(
        &self,
        house: u8,
        estate: u32,
        claims: &[u32],
        awards: &mut [u32],
    ) -> Result<(), Fault> {
        let total = ClaimList::check(claims, awards.len())?.total();
        let lacking = total.saturating_sub(estate);
        self.below.awards(house, lacking, claims, awards)?;
        take_from(claims, awards);
        Ok(())
    }
}
