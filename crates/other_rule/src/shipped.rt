// The shipped rules on examples.
use crate::division::{check_divisions, draft_of};
use rules::{Dual, EqualAwards, Jefferson, UnitRule, check_claims, ring_rulebook};
use std::test::Fail;

#[test]
fn equal_awards(rt: HostRuntime) -> Result<(), Fail> {
    let divisions = [
        (0, 6, [1, 4, 4], [1, 3, 2]),
        (0, 20_000, [10_000, 3_000, 10_000], [8_500, 3_000, 8_500]),
        (0, u32::MAX, [10_000, 0, 1], [10_000, 0, 1]),
    ];
    check_divisions(&rt, &UnitRule::new(EqualAwards), &divisions)
}

// Of claims of 3 and 7 the second has 7 over 2 for its second unit, above the 3 over 1 of the first.
#[test]
fn jefferson(rt: HostRuntime) -> Result<(), Fail> {
    let divisions = [
        (0, 2, [6, 3, 0], [2, 0, 0]),
        (0, 3, [6, 3, 0], [2, 1, 0]),
        (0, 2, [3, 7, 0], [0, 2, 0]),
    ];
    check_divisions(&rt, &UnitRule::new(Jefferson), &divisions)
}

#[test]
fn dual_of_equal_awards(rt: HostRuntime) -> Result<(), Fail> {
    let divisions = [
        (0, 1, [1, 1, 0], [0, 1, 0]),
        (0, u32::MAX, [10_000, 0, 1], [10_000, 0, 1]),
    ];
    check_divisions(&rt, &Dual::new(UnitRule::new(EqualAwards)), &divisions)
}

#[test]
fn every_house_of_the_ring(rt: HostRuntime) -> Result<(), Fail> {
    let divisions = [
        (0, 4, [4, 2, 2], [4, 0, 0]),
        (1, 4, [4, 2, 2], [2, 1, 1]),
        (2, 3, [4, 2, 2], [2, 1, 0]),
        (3, 4, [4, 2, 2], [2, 1, 1]),
        (4, 3, [4, 2, 2], [0, 2, 1]),
        (255, 5, [4, 2, 2], [1, 2, 2]),
    ];
    let draft = draft_of([1, 0, 0])?;
    check_divisions(&rt, &ring_rulebook(draft.figures()), &divisions)
}

// The number of the cause for which a list is refused, and the creditor named. (Numbers: it is these that are fixed.)
fn refusal(claims: &[u32], room: usize) -> Option<(u8, u8)> {
    check_claims(claims, room)
        .err()
        .map(|fault| (fault.cause.number(), fault.creditor))
}

#[test]
fn refusals(rt: HostRuntime) {
    assert_eq!(rt; refusal(&[10_000; 32], 32), None);
    assert_eq!(rt; refusal(&[0; 33], 33), Some((10, 255)));
    assert_eq!(rt; refusal(&[0; 2], 3), Some((10, 255)));
    assert_eq!(rt; refusal(&[10_000, 10_001, 10_001], 3), Some((11, 1)));
}
