// The other author's rule, alone and under each layer.
use crate::division::{check_divisions, draft_of};
use crate::reverse::ReversePriority;
use rules::{Choice, ClassTable, Classes, Dual, Priority};
use std::test::Fail;

#[test]
fn the_highest_number_comes_first(rt: HostRuntime) -> Result<(), Fail> {
    let divisions = [
        (0, 3, [3, 4, 0], [0, 3, 0]),
        (0, 5, [3, 4, 0], [1, 4, 0]),
        (0, 9, [3, 4, 0], [3, 4, 0]),
    ];
    check_divisions(&rt, &ReversePriority::new(), &divisions)
}

// Of 5 units that lack, creditor 1 goes without 4 and creditor 0 without one.
#[test]
fn its_dual_pays_the_lowest_number_first(rt: HostRuntime) -> Result<(), Fail> {
    let divisions = [(0, 2, [3, 4, 0], [2, 0, 0]), (0, 5, [3, 4, 0], [3, 2, 0])];
    check_divisions(&rt, &Dual::new(ReversePriority::new()), &divisions)
}

// Of 3 units class 0 takes all, for claims of 2 and 2; of 6 it leaves 2 for class 1.
#[test]
fn its_classes_are_served_in_turn(rt: HostRuntime) -> Result<(), Fail> {
    let divisions = [(0, 3, [5, 2, 2], [0, 1, 2]), (0, 6, [5, 2, 2], [2, 2, 2])];
    let draft = draft_of([1, 0, 0])?;
    let table = ClassTable::of(draft.figures());
    check_divisions(
        &rt,
        &Classes::new(ReversePriority::new(), table),
        &divisions,
    )
}

#[test]
fn the_house_chooses_it(rt: HostRuntime) -> Result<(), Fail> {
    let divisions = [
        (0, 5, [3, 4, 0], [3, 2, 0]),
        (1, 5, [3, 4, 0], [1, 4, 0]),
        (255, 5, [3, 4, 0], [1, 4, 0]),
    ];
    let either = Choice {
        first: Priority,
        second: ReversePriority::new(),
    };
    check_divisions(&rt, &either, &divisions)
}
