// A standard of another author by which scores rise with the units held.
ghost use Rattle.other_rule.specs.Concentrated.{concentrated_score};
ghost use Rattle.std.proofs.Common.{rules};

use rules::{Standard, out_of_reach};

// Whoever holds most comes first, so that one creditor is paid in full before another gets a unit. It does
// not say that its scores never rise, nor could it, and is served one unit at a time.
#[derive(Clone, Copy)]
pub struct Concentrated;

impl Standard for Concentrated {
    const MAX_NUMERATOR: u32 = 10_000;

    const MAX_DENOMINATOR: u32 = 1;

    ghost MAX_NUMERATOR = { 10000 };

    ghost MAX_DENOMINATOR = { 1 };

    ghost scored = { λ _. concentrated_score };

    ghost small = { Prim.search rules };

    ghost measured = { Prim.search rules };

    fn score(&self, creditor: u8, claim: u32, held: u32) -> (u32, u32) {
        if out_of_reach(creditor, claim, held) {
            (0, 1)
        } else {
            (held + 1, 1)
        }
    }
}
