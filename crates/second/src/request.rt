// What is requested of a ledger, and what came of it.
use crate::refusal::{Named, Refusal};
use std::fmt;

#[derive(Clone, Copy)]
pub enum Request {
    // debtor, creditor and units
    Pay(u8, u8, u32),
    // the member
    Settle(u8),
    Round,
    // debtor and creditor
    Paid(u8, u8),
    // the member
    Cash(u8),
    // debtor and creditor
    Due(u8, u8),
    Next,
}

impl Request {
    // The members that a request names.
    pub(crate) fn named(self) -> Named {
        match self {
            Request::Pay(debtor, creditor, _)
            | Request::Paid(debtor, creditor)
            | Request::Due(debtor, creditor) => Named::Pair(debtor, creditor),
            Request::Settle(member) | Request::Cash(member) => Named::Debtor(member),
            Request::Round | Request::Next => Named::Nobody,
        }
    }
}

impl fmt::Display for Request {
    fn fmt<W: fmt::Write>(&self, f: &mut fmt::Formatter<W>) -> fmt::Result {
        match self {
            Request::Pay(debtor, creditor, units) => write!(f, "pay {debtor} {creditor} {units}"),
            Request::Settle(member) => write!(f, "settle {member}"),
            Request::Round => write!(f, "round"),
            Request::Paid(debtor, creditor) => write!(f, "paid {debtor} {creditor}"),
            Request::Cash(member) => write!(f, "cash {member}"),
            Request::Due(debtor, creditor) => write!(f, "due {debtor} {creditor}"),
            Request::Next => write!(f, "next"),
        }
    }
}

// The units that a round moved, and how many members it passed over.
#[derive(Clone, Copy, Default)]
pub struct Round {
    pub moved: usize,
    pub passed_over: usize,
}

#[derive(Clone, Copy)]
pub enum Answer {
    Units(Result<u32, Refusal>),
    Round(Round),
    // the next member, if any
    Next(Option<usize>),
}

impl fmt::Display for Answer {
    fn fmt<W: fmt::Write>(&self, f: &mut fmt::Formatter<W>) -> fmt::Result {
        match self {
            Answer::Units(Ok(units)) => write!(f, "{units}"),
            Answer::Units(Err(refusal)) => write!(f, "{refusal}"),
            Answer::Round(Round { moved, passed_over }) => write!(f, "{moved} {passed_over}"),
            Answer::Next(Some(member)) => write!(f, "{member}"),
            Answer::Next(None) => write!(f, "none"),
        }
    }
}
