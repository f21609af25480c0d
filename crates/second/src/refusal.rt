// Refusals: what is wrong, and what the layer that refuses names of it.
use crate::cause::Cause;
use std::error::Error;
use std::fmt;

// The members that a refusal names.
#[derive(Clone, Copy, PartialEq, Eq, Debug)]
pub enum Named {
    Nobody,
    Debtor(u8),
    Creditor(u8),
    // debtor and creditor
    Pair(u8, u8),
}

// Debtor and creditor, and 255 where nobody is named.
impl fmt::Display for Named {
    fn fmt<W: fmt::Write>(&self, f: &mut fmt::Formatter<W>) -> fmt::Result {
        match self {
            Named::Nobody => write!(f, "255 255"),
            Named::Debtor(debtor) => write!(f, "{debtor} 255"),
            Named::Creditor(creditor) => write!(f, "255 {creditor}"),
            Named::Pair(debtor, creditor) => write!(f, "{debtor} {creditor}"),
        }
    }
}

// A refusal, by its layer. A byte is the first of the record that was refused.
#[derive(Clone, Copy, PartialEq, Eq, Debug)]
pub enum Refusal {
    File {
        cause: Cause,
        byte: usize,
    },
    Draft {
        cause: Cause,
        byte: usize,
        named: Named,
    },
    Book {
        cause: Cause,
        named: Named,
    },
    Rule {
        cause: Cause,
        named: Named,
    },
}

impl fmt::Display for Refusal {
    fn fmt<W: fmt::Write>(&self, f: &mut fmt::Formatter<W>) -> fmt::Result {
        match self {
            Refusal::File { cause, byte } => {
                let nobody = Named::Nobody;
                write!(f, "fault {cause} file {byte} {nobody}")
            }
            Refusal::Draft { cause, byte, named } => {
                write!(f, "fault {cause} draft {byte} {named}")
            }
            Refusal::Book { cause, named } => write!(f, "fault {cause} book 0 {named}"),
            Refusal::Rule { cause, named } => write!(f, "fault {cause} rule 0 {named}"),
        }
    }
}

impl Error for Refusal {}
