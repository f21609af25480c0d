// Choice: the house picks one of two rulebooks.
ghost use Rattle.rules.specs.Choice.{choice};
ghost use Rattle.rules.specs.ChoiceLaws.{choice_laws};

use crate::rulebook::Rulebook;
use network::Fault;

// House 0 goes to the first rulebook, any other to the second as the house before it. So a chain of
// choices gives each house a rulebook of its own, and the last one serves all that are left.
#[derive(Drop)]
pub struct Choice<P, Q> {
    pub first: P,
    pub second: Q,
}

impl<P: Rulebook, Q: Rulebook> Rulebook for Choice<P, Q> {
    ghost awarded = { λ s. choice (P.Rulebook.awarded s.first) (Q.Rulebook.awarded s.second) };

    ghost lawful = { λ s. choice_laws _ _ (P.Rulebook.lawful s.first) (Q.Rulebook.lawful s.second) };

    fn awards(
        &self,
        house: u8,
        estate: u32,
        claims: &[u32],
        awards: &mut [u32],
    ) -> Result<(), Fault> {
        match house {
            0 => self.first.awards(0, estate, claims, awards),
            _ => self.second.awards(house - 1, estate, claims, awards),
        }
    }
}
