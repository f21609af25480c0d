// The standard of Jefferson's divisor method.
ghost use Rattle.rules.specs.Standards.{jefferson_score};
ghost use Rattle.std.proofs.Common.{rules};

use crate::standard::{Standard, out_of_reach};

// Whoever would hold least for its claim, with one unit more, comes first.
#[derive(Clone, Copy)]
pub struct Jefferson;

impl Standard for Jefferson {
    const MAX_NUMERATOR: u32 = 10_000;

    const MAX_DENOMINATOR: u32 = 10_000;

    ghost MAX_NUMERATOR = { 10000 };

    ghost MAX_DENOMINATOR = { 10000 };

    ghost scored = { λ _. jefferson_score };

    ghost small = { Prim.search rules };

    ghost measured = { Prim.search rules };

    fn score(&self, creditor: u8, claim: u32, held: u32) -> (u32, u32) {
        if out_of_reach(creditor, claim, held) {
            (0, 1)
        } else {
            (claim, held + 1)
        }
    }

    fn never_rises(&self) -> bool {
        true
    }

    // Each claim's proportional share of the units, rounded down.
    fn guess(&self, units: u32, claims: &[u32], awards: &mut [u32]) {
        let total = claims
            .iter()
            .fold(0u64, |total, claim| total.wrapping_add(u64::from(*claim)));
        if total == 0 {
            return;
        }
        // one division for all: units over total, in parts of 2^32 and rounded up, by too little to lift a
        // share over the next whole number
        let rate = (u64::from(units) * 0x1_0000_0000 / total).wrapping_add(1);
        for (award, claim) in awards.iter_mut().zip(claims) {
            let share = u64::from(*claim).wrapping_mul(rate) / 0x1_0000_0000;
            *award = share.min(u64::from(*claim)) as u32;
        }
    }
}
