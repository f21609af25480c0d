// The ring's rulebook: which rule each house has.
ghost use Rattle.rules.specs.Classes.{classes_of};
ghost use Rattle.rules.specs.Ring.{ring_rule, ring_classes, RingRules, RingApart};
ghost use Rattle.rules.specs.Standards.{equal_score, jefferson_score};
ghost use Rattle.rules.specs.ChoiceLaws.{choice_laws};
ghost use Rattle.rules.specs.ClassLaws.{class_laws};
ghost use Rattle.rules.specs.DualLaws.{dual_laws};
ghost use Rattle.rules.specs.PriorityLaws.{priority_laws};
ghost use Rattle.rules.specs.UnitLaws.{unit_laws};
ghost use Rattle.rules.specs.contracts.equal_awards.EqualAwardsStandard.TheImpl.Laws as EqualAwardsLaws;
ghost use Rattle.rules.specs.contracts.jefferson.JeffersonStandard.TheImpl.Laws as JeffersonLaws;

use crate::choice::Choice;
use crate::class_table::ClassTable;
use crate::classes::Classes;
use crate::dual::Dual;
use crate::equal_awards::EqualAwards;
use crate::jefferson::Jefferson;
use crate::priority::Priority;
use crate::rulebook::Rulebook;
use crate::unit::UnitRule;
use network::{Fault, Figures};

// Houses 0 to 3, each with a rule of its own, and all others.
type Houses = Choice<
    Priority,
    Choice<
        UnitRule<EqualAwards>,
        Choice<
            UnitRule<Jefferson>,
            Choice<Dual<UnitRule<EqualAwards>>, Classes<UnitRule<Jefferson>>>,
        >,
    >,
>;

// Priority for house 0, equal awards for 1, Jefferson for 2, the dual of equal awards for 3, and classes
// over Jefferson for every other house.
#[derive(Drop)]
pub struct RingRulebook {
    houses: Houses,
}

// The ring's rulebook for a network, whose members' classes it takes, with what sets each house's rule
// apart from all other divisions.
pub fn ring_rulebook(figures: &Figures) -> RingRulebook
    ensures rules { RingRules (ring_rule (ring_classes result)) (classes_of figures.now) }
    ensures apart { RingApart (ring_rule (ring_classes result)) (classes_of figures.now) }
{
    let classes = Classes::new(UnitRule::new(Jefferson), ClassTable::of(figures));
    let houses = Choice {
        first: Priority,
        second: Choice {
            first: UnitRule::new(EqualAwards),
            second: Choice {
                first: UnitRule::new(Jefferson),
                second: Choice {
                    first: Dual::new(UnitRule::new(EqualAwards)),
                    second: classes,
                },
            },
        },
    };
    RingRulebook { houses }
}

impl Rulebook for RingRulebook {
    ghost awarded = { λ s. ring_rule (ring_classes s) };

    ghost lawful = { λ s.
        let equal = unit_laws equal_score (EqualAwardsLaws.measured-law record {}).positive in
        let by_claim = unit_laws jefferson_score (JeffersonLaws.measured-law record {}).positive in
        let table = s.houses.second.second.second.second.table in
        choice_laws _ _ (λ _. priority_laws)
        (choice_laws _ _ (λ _. equal)
        (choice_laws _ _ (λ _. by_claim)
        (choice_laws _ _ (λ _. dual_laws _ equal)
        (λ _. class_laws _ _ table.low by_claim)))) };

    fn awards(
        &self,
        house: u8,
        estate: u32,
        claims: &[u32],
        awards: &mut [u32],
    ) -> Result<(), Fault> {
        self.houses.awards(house, estate, claims, awards)
    }
}
