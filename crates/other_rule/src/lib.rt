// A rule and standards of another author, under the layers that the engine ships, and the shipped rules on
// examples.
#![tactic(auto)]

mod concentrated;
#[cfg(test)]
mod division;
#[cfg(test)]
mod layers;
mod misled;
mod reverse;
#[cfg(test)]
mod shipped;
#[cfg(test)]
mod standards;

pub use concentrated::Concentrated;
pub use misled::Misled;
pub use reverse::ReversePriority;
