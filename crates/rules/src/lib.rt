// Rulebooks: how the estate of a debtor is divided among its creditors.
#![tactic(auto)]

mod choice;
mod claims;
mod class_table;
mod classes;
mod contest;
mod dealing;
mod dual;
mod equal_awards;
mod examples;
mod guessing;
mod in_turn;
mod jefferson;
mod priority;
mod ring;
mod rulebook;
mod standard;
mod unit;

pub use choice::Choice;
pub use class_table::ClassTable;
pub use classes::Classes;
pub use dual::Dual;
pub use equal_awards::EqualAwards;
pub use examples::examples_stand;
pub use jefferson::Jefferson;
pub use priority::Priority;
pub use ring::{RingRulebook, ring_rulebook};
pub use rulebook::{Rulebook, check_claims};
pub use standard::{Standard, out_of_reach};
pub use unit::UnitRule;
