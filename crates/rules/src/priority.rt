// Priority: the creditors are paid in the order of their numbers.
ghost use Rattle.std.specs.Prelude.{◌≡◌, length};
ghost use Rattle.rules.specs.Priority.{priority};
ghost use Rattle.rules.specs.PriorityLaws.{priority_laws};

use crate::rulebook::{Rulebook, check_claims};
use network::Fault;

// Each creditor is paid in full before the next one gets a unit.
#[derive(Clone, Copy)]
pub struct Priority;

fn pay_in_order(estate: u32, claims: &[u32], awards: &mut [u32])
    requires { length awards.old ≡ length claims.now }
    ensures { awards.new ≡ priority estate claims.now }
{
    let mut left = estate;
    // Numbered and not zipped: of what a `zip` over `iter_mut` lends, a proof knows only the length.
    for (k, award) in awards.iter_mut().enumerate() {
        *award = left.min(claims[k]);
        left -= *award;
    }
}

impl Rulebook for Priority {
    ghost awarded = { λ _ _. priority };

    ghost lawful = { λ s house. priority_laws };

    fn awards(
        &self,
        _house: u8,
        estate: u32,
        claims: &[u32],
        awards: &mut [u32],
    ) -> Result<(), Fault> {
        check_claims(claims, awards.len())?;
        pay_in_order(estate, claims, awards);
        Ok(())
    }
}
