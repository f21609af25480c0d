// The calls on an open book, as values.
use network::Fault;

// A call with its arguments.
#[derive(Clone, Copy)]
pub enum Call {
    // debtor, creditor and units
    Pay(u8, u8, u32),
    // the member
    Settle(u8),
    Round,
    // debtor and creditor
    Paid(u8, u8),
    // the member
    Cash(u8),
    // debtor and creditor
    Due(u8, u8),
    Next,
}

// What a call answered.
#[derive(Clone, Copy)]
pub enum Answer {
    // units, or why the call was refused
    Units(Result<u32, Fault>),
    // the units that a round moved, and the members that it passed over
    Rounded(u32, u8),
    // the member whose settle would pay, if any
    Member(Option<u8>),
}

// A call to be made, and its answer once it is made.
#[derive(Clone, Copy)]
pub struct Task {
    pub call: Call,
    pub answer: Option<Answer>,
}
