// What is wrong where something is refused.
use std::fmt;

// Each cause has its fixed number, by which it is printed.
#[derive(Clone, Copy, PartialEq, Eq, Debug)]
pub enum Cause {
    // a network has 1 to 32 members
    MemberCount = 1,
    // there is no such member
    NoSuchMember = 2,
    // a class is above 7
    ClassTooHigh = 3,
    // an endowment is above 1,000,000
    EndowmentTooLarge = 4,
    // a debtor is its own creditor
    ClaimOnItself = 5,
    // a claim above 10,000 is entered
    ClaimTooLarge = 6,
    // a payment of 0 units
    NoUnits = 7,
    // the debtor has paid somebody more than is due
    Receded = 8,
    // a payment is above due less paid
    AboveDue = 9,
    // more than 32 claims, or a buffer of another length
    ListLength = 10,
    // a claim above 10,000 is in a list
    ListedClaimTooLarge = 11,
    // a file ends inside a record, or before its End record
    EndOfFile = 12,
    // no record is of this kind
    UnknownKind = 13,
    // a kind or a member number is not due here
    NotDue = 14,
    // a claim record has 0 units, or is out of order
    ClaimOrder = 15,
    // a buffer is too short for a file
    ShortBuffer = 16,
}

impl fmt::Display for Cause {
    fn fmt<W: fmt::Write>(&self, f: &mut fmt::Formatter<W>) -> fmt::Result {
        let number = *self as u8;
        write!(f, "{number}")
    }
}
