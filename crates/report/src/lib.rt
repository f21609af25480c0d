// What the engine reports of a network file: the lines of its settlement sheet, or why it was refused.
#![tactic(auto)]

mod clearance;
mod line;
mod statement;
mod writing;

pub use clearance::{LONGEST_INPUT, Report, clear};
pub use line::{Line, print};
pub use statement::sheet_lines;
