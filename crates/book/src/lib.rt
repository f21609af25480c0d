// The book of payments of a network: opened on a draft, worked in any order, and closed with a sheet.
#![tactic(auto)]

mod book;
mod call;
mod close;
mod compare;
mod dues;
mod examples;
mod lives;
mod open;
mod pay;
mod questions;
mod round;
mod rows;
mod seat;
mod seating;
mod settle;
mod settlement;
mod sheet;
mod text;
mod visits;

pub use book::Book;
pub use call::{Answer, Call, Task};
pub use compare::equal_sheets;
pub use examples::worked_examples_stand;
pub use lives::work_both;
pub use sheet::Sheet;
