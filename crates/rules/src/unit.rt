// The unit rule: one unit at a time, each to the highest score.
ghost use Rattle.std.specs.Prelude.{◌≡◌, length};
ghost use Rattle.rules.specs.Theorems.{Only, NeverRises, Foremost, UnitByUnit};
ghost use Rattle.rules.specs.Unit.{dealt, unit_rule};
ghost use Rattle.rules.specs.UnitLaws.{unit_laws};

use crate::claims::ClaimList;
use crate::contest::{Contest, Standing};
use crate::rulebook::Rulebook;
use crate::standard::Standard;
use network::Fault;

// Hands out the estate one unit at a time, each to the creditor that scores highest by the standard
// among those that hold less than their claim, and to the lowest-numbered of equals.
#[derive(Drop)]
pub struct UnitRule<S> {
    standard: S,
}

impl<S: Standard> UnitRule<S> {
    // With each unit that the estate grows, the creditor with the best right to it gets one more. Where
    // scores never rise with the units held, the awards are the only division in which no unit that is
    // still wanted has a better right than one that is held.
    pub fn new(standard: S) -> UnitRule<S>
        ensures made { result.standard ≡ standard }
        ensures steps { UnitByUnit (S.Standard.scored standard) }
        ensures apart { NeverRises (S.Standard.scored standard) → Only (unit_rule (S.Standard.scored standard)) (Foremost (S.Standard.scored standard)) }
    {
        UnitRule { standard }
    }
}

impl<S: Standard> Contest<'_, S> {
    // Divides units that do not meet all claims: from a guess that passes the check or from nothing, and
    // then one at a time.
    fn divide(&self, units: u32, awards: &mut [u32])
        requires { length awards.old ≡ length self.now.claims.list.now }
        ensures { awards.new ≡ dealt (S.scored self.now.standard.now) self.now.claims.list.now units }
    {
        let mut begun = Standing {
            units: 0,
            heads: [(0, 1); 32],
        };
        self.begin(units, &mut begun, awards);
        self.deal(&mut begun, units, awards);
    }
}

impl<S: Standard> Rulebook for UnitRule<S> {
    ghost awarded = { λ s _. unit_rule (S.Standard.scored s.standard) };

    ghost lawful = { λ s house. unit_laws (S.Standard.scored s.standard) (S.Standard.measured s.standard).positive };

    fn awards(
        &self,
        _house: u8,
        estate: u32,
        claims: &[u32],
        awards: &mut [u32],
    ) -> Result<(), Fault> {
        let admitted = ClaimList::check(claims, awards.len())?;
        if estate >= admitted.total() {
            awards.copy_from_slice(claims);
            return Ok(());
        }
        if estate == 0 {
            awards.fill(0);
            return Ok(());
        }
        let contest = Contest {
            standard: &self.standard,
            claims: admitted,
        };
        contest.divide(estate, awards);
        Ok(())
    }
}
