// Random requests, and the calls that they are to the engine.
use crate::dice::Dice;
use book::{Call, Task};
use second::Request;
use std::alloc::{AllocError, Global};

// A member, or now and then the first number past them or 255.
fn random_member(dice: &mut Dice, n: u8) -> u8 {
    match dice.between(1, 20) {
        1 => n,
        2 => 255,
        _ => dice.byte(0, n.saturating_sub(1)),
    }
}

fn random_request(dice: &mut Dice, n: u8) -> Request {
    let debtor = random_member(dice, n);
    let creditor = random_member(dice, n);
    match dice.between(1, 20) {
        1..=9 => {
            let most = if dice.once_in(4) { 10_001 } else { 4 };
            Request::Pay(debtor, creditor, dice.between(0, most))
        }
        10..=13 => Request::Settle(debtor),
        14 => Request::Round,
        15 => Request::Paid(debtor, creditor),
        16 => Request::Cash(debtor),
        17 | 18 => Request::Due(debtor, creditor),
        _ => Request::Next,
    }
}

// How many requests there are at most.
const MOST: u32 = 40;

// Requests in a network of n members.
pub fn random_requests(heap: Global, dice: &mut Dice, n: u8) -> Result<Vec<Request>, AllocError> {
    (0..dice.between(0, MOST))
        .map(|_| random_request(dice, n))
        .collect(heap)
}

// Both types are of other crates, so that no `From` between them can stand here.
pub fn call_of(request: Request) -> Call {
    match request {
        Request::Pay(debtor, creditor, units) => Call::Pay(debtor, creditor, units),
        Request::Settle(member) => Call::Settle(member),
        Request::Round => Call::Round,
        Request::Paid(debtor, creditor) => Call::Paid(debtor, creditor),
        Request::Cash(member) => Call::Cash(member),
        Request::Due(debtor, creditor) => Call::Due(debtor, creditor),
        Request::Next => Call::Next,
    }
}

pub fn tasks_of(heap: Global, requests: &[Request]) -> Result<Vec<Task>, AllocError> {
    requests
        .iter()
        .map(|request| Task {
            call: call_of(*request),
            answer: None,
        })
        .collect(heap)
}
