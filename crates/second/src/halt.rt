// Why something is not done.
use crate::refusal::Refusal;
use std::alloc::{AllocError, AllocFailed};
use std::error::Error;
use std::fmt;

#[derive(Debug, Drop)]
pub enum Halt {
    // an input is longer than any file
    TooLong,
    Refused(Refusal),
    NoMemory(AllocError),
}

impl From<Refusal> for Halt {
    fn from(refusal: Refusal) -> Halt {
        Halt::Refused(refusal)
    }
}

impl From<AllocError> for Halt {
    fn from(error: AllocError) -> Halt {
        Halt::NoMemory(error)
    }
}

impl<T: Drop> From<AllocFailed<T>> for Halt {
    fn from(error: AllocFailed<T>) -> Halt {
        Halt::NoMemory(error.into())
    }
}

impl fmt::Display for Halt {
    fn fmt<W: fmt::Write>(&self, f: &mut fmt::Formatter<W>) -> fmt::Result {
        match self {
            Halt::TooLong => write!(f, "too long"),
            Halt::Refused(refusal) => write!(f, "{refusal}"),
            Halt::NoMemory(error) => write!(f, "{error}"),
        }
    }
}

impl Error for Halt {}
