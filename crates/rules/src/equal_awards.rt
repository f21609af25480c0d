// The standard of equal awards.
ghost use Rattle.rules.specs.Standards.{equal_score};
ghost use Rattle.std.proofs.Common.{rules};

use crate::standard::{Standard, out_of_reach};

// Whoever holds least comes first, whatever its claim.
#[derive(Clone, Copy)]
pub struct EqualAwards;

impl Standard for EqualAwards {
    const MAX_NUMERATOR: u32 = 1;

    const MAX_DENOMINATOR: u32 = 10_000;

    ghost MAX_NUMERATOR = { 1 };

    ghost MAX_DENOMINATOR = { 10000 };

    ghost scored = { λ _. equal_score };

    ghost small = { Prim.search rules };

    ghost measured = { Prim.search rules };

    fn score(&self, creditor: u8, claim: u32, held: u32) -> (u32, u32) {
        if out_of_reach(creditor, claim, held) {
            (0, 1)
        } else {
            (1, held + 1)
        }
    }

    fn never_rises(&self) -> bool {
        true
    }

    // The highest level at which everyone's lesser of claim and level fits the units.
    fn guess(&self, units: u32, claims: &[u32], awards: &mut [u32]) {
        let level = highest_level(units, claims);
        for (award, claim) in awards.iter_mut().zip(claims) {
            *award = level.min(*claim);
        }
    }
}

// What those whose claims are above a level get each, if all others are paid in full and they share alike.
fn share_above(level: u32, units: u32, claims: &[u32]) -> u32 {
    let mut met = 0u32;
    let mut open = 0u32;
    for claim in claims {
        if *claim > level {
            open = open.wrapping_add(1);
        } else {
            met = met.wrapping_add(*claim);
        }
    }
    units.saturating_sub(met).checked_div(open).unwrap_or(level)
}

// From 0 the level rises to what those above it can get each, until it rises no more: at most once for
// each claim that it passes.
fn highest_level(units: u32, claims: &[u32]) -> u32 {
    let mut level = 0;
    for _claim in claims {
        let share = share_above(level, units, claims);
        if share <= level {
            break;
        }
        level = share;
    }
    level
}
