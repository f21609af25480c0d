// A second implementation of the network file, the division rules, the book and clearing, written from the
// pages in docs/ and sharing nothing with the engine, so that the two can be compared. What it answers is
// evidence by comparison and not by proof: its functions are proved safe and ending, and but for two that
// lend an entry and the members they promise no more.
//
// It goes another way than the engine. Each rule is a queue, the order in which a debtor pays the units of
// the claims on it, so that what is due from an estate is the front of the queue; a network is cleared by
// everyone paying on at once; and a file is read byte by byte.
#![tactic(auto)]

mod cause;
mod clearance;
mod flow;
mod halt;
mod ledger;
mod network;
mod payments;
mod queue;
mod reading;
mod refusal;
mod request;
mod row;
mod statement;

pub use cause::Cause;
pub use clearance::clear;
pub use flow::least_payments;
pub use halt::Halt;
pub use ledger::Ledger;
pub use network::{Member, Network};
pub use payments::Payments;
pub use queue::{Rule, Rules, awards};
pub use reading::read;
pub use refusal::{Named, Refusal};
pub use request::{Answer, Request, Round};
pub use row::Row;
pub use statement::{Account, sheet_text};
