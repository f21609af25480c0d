// Serving a part of the claims from what the parts before it leave of the estate.
ghost use Rattle.std.specs.Prelude.{◌≡◌, ℕ, ◌+◌, ◌-◌, ◌≤◌, min, length, sum, slice_index};
ghost use Rattle.rules.specs.Places.{plus};

use crate::claims::ClaimList;
use crate::rulebook::Rulebook;

// Adds to each award what stands in its place in `more`. (`take_from` of the dual has the same loop. Not one
// function with a closure: sum and difference each ask for a bound of their own.)
fn add_to(awards: &mut [u32], more: &[u32])
    requires same { length awards.old ≡ length more.now }
    requires fits { (k : ℕ) → slice_index awards.old k + slice_index more.now k ≤ 10000 }
    ensures { awards.new ≡ plus awards.old more.now }
{
    // Numbered and not zipped: of what a `zip` over `iter_mut` lends, a proof knows only the length.
    for (k, award) in awards.iter_mut().enumerate() {
        *award += more[k];
    }
}

// Serves one part from what is left of the estate, adding to the awards what it brings each creditor, and
// answers what is then left.
pub(crate) fn serve<R: Rulebook>(
    rulebook: &R,
    house: u8,
    left: u32,
    part: &ClaimList,
    awards: &mut [u32],
) -> u32
    requires same { length awards.old ≡ length part.now.list.now }
    requires fits { (k : ℕ) → slice_index awards.old k + slice_index part.now.list.now k ≤ 10000 }
    ensures rest { result ≡ left - sum part.now.list.now }
    ensures served { awards.new ≡ plus awards.old (R.Rulebook.awarded rulebook.now house (min left (sum part.now.list.now)) part.now.list.now) }
{
    let total = part.total();
    let share = left.min(total);
    // served in full a part brings everyone its claim, and served nothing it brings nobody a unit
    if share == total {
        add_to(awards, part.list);
    } else if share > 0 {
        // Room in an array: the rules have no heap.
        let mut room = [0; 32];
        let brought = &mut room[..part.list.len()];
        // an admitted part is not refused
        let _ = rulebook.awards(house, share, part.list, brought);
        add_to(awards, brought);
    }
    left - share
}
