// The other author's standards under the unit rule.
use crate::concentrated::Concentrated;
use crate::division::check_divisions;
use crate::misled::Misled;
use rules::UnitRule;
use std::test::Fail;

// The first creditor is ahead by its number, and then by what it holds.
#[test]
fn rising_scores_are_served_one_unit_at_a_time(rt: HostRuntime) -> Result<(), Fail> {
    let divisions = [
        (0, 2, [3, 4, 4], [2, 0, 0]),
        (0, 5, [3, 4, 4], [3, 2, 0]),
        (0, 8, [3, 4, 4], [3, 4, 1]),
    ];
    check_divisions(&rt, &UnitRule::new(Concentrated), &divisions)
}

#[test]
fn a_wrong_guess_is_turned_down(rt: HostRuntime) -> Result<(), Fail> {
    let divisions = [
        (0, 6, [1, 4, 4], [1, 3, 2]),
        (0, 1_000, [600, 600, 600], [334, 333, 333]),
    ];
    check_divisions(&rt, &UnitRule::new(Misled), &divisions)
}
