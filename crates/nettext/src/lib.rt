// A network as readable text: one line for the number of members, for each member and for each claim.
#![tactic(auto)]

mod line;
mod reading;
#[cfg(test)]
mod tests;
mod writing;

pub use line::TextLine;
pub use reading::{BadLine, Slip, count_text, load_text};
pub use writing::network_lines;
