// The figures of a network of members that owe one another, the draft in which they are entered,
// and the faults by which every call of the engine refuses.
#![tactic(auto)]

mod draft;
mod entries;
mod fault;
mod figures;
mod member_count;

pub use draft::Draft;
pub use fault::{Cause, Fault, Layer, NOBODY};
pub use figures::{Figures, MEMBERS, Member};
pub use member_count::MemberCount;
