// Reverse priority: the creditors are paid from the highest number down.
ghost use Rattle.std.specs.Prelude.{◌≡◌, length};
ghost use Rattle.other_rule.specs.Reverse.{reverse_priority, DualOfPriority};
ghost use Rattle.other_rule.specs.ReverseLaws.{reverse_laws};

use network::Fault;
use rules::{Rulebook, check_claims};

// Each creditor is paid in full before the one that comes before it in the list gets a unit.
#[derive(Clone, Copy)]
pub struct ReversePriority;

impl ReversePriority {
    pub fn new() -> ReversePriority
        ensures { DualOfPriority }
    {
        ReversePriority
    }
}

// The code of priority is not called here: another author's crate knows no more than `rules` makes public.
fn pay_from_last(estate: u32, claims: &[u32], awards: &mut [u32])
    requires { length awards.old ≡ length claims.now }
    ensures { awards.new ≡ reverse_priority estate claims.now }
{
    let mut left = estate;
    // By number: over `claims.iter().enumerate().rev()` the proof is longer.
    for k in (0..claims.len()).rev() {
        let award = left.min(claims[k]);
        awards[k] = award;
        left -= award;
    }
}

impl Rulebook for ReversePriority {
    ghost awarded = { λ _ _. reverse_priority };

    ghost lawful = { λ s house. reverse_laws };

    fn awards(
        &self,
        _house: u8,
        estate: u32,
        claims: &[u32],
        awards: &mut [u32],
    ) -> Result<(), Fault> {
        check_claims(claims, awards.len())?;
        pay_from_last(estate, claims, awards);
        Ok(())
    }
}
