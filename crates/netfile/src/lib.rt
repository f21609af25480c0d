// The network file: its records, the members that it counts, and a draft read from it or written into it.
#![tactic(auto)]

mod body;
mod counting;
mod due;
mod fault;
mod kind;
mod loading;
mod reading;
mod record;
mod rest;
mod trips;
mod writer;
mod writing;

pub use counting::count;
pub use kind::BODY_LENGTHS;
pub use loading::load;
pub use record::{Record, record_at, rest_after};
pub use trips::{copy, rewrite};
pub use writing::{file_length, write};
