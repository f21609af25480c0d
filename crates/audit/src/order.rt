// Orders of work as text: a call to a line, a word and its numbers. What stands behind a # is a comment.
use book::{Call, Task};
use std::alloc::{AllocError, AllocFailed, Global};
use std::fmt;
use std::str::{FromStr, SplitWhitespace};

// Why an order is not read.
#[derive(Drop)]
pub enum OrderError {
    // the number of the line that is no call
    Line(usize),
    Memory,
}

impl fmt::Display for OrderError {
    fn fmt<W: fmt::Write>(&self, f: &mut fmt::Formatter<W>) -> fmt::Result {
        match *self {
            OrderError::Line(number) => write!(f, "line {number} is no call"),
            OrderError::Memory => write!(f, "out of memory"),
        }
    }
}

impl From<AllocError> for OrderError {
    fn from(_e: AllocError) -> OrderError {
        OrderError::Memory
    }
}

impl<T: Drop> From<AllocFailed<T>> for OrderError {
    fn from(_e: AllocFailed<T>) -> OrderError {
        OrderError::Memory
    }
}

// The next word, as a number. (nettext has the same line, and reads comments alike; shared, they would be public and need a
// contract over texts and their words.)
fn number<T: FromStr<Err: Drop>>(words: &mut SplitWhitespace<'_>) -> Option<T> {
    words.next()?.parse::<T>().ok()
}

// The call that a line is, if it is one.
fn parse_call(line: &str) -> Option<Call> {
    let mut words = line.split_whitespace();
    let call = match words.next()? {
        "pay" => Call::Pay(
            number(&mut words)?,
            number(&mut words)?,
            number(&mut words)?,
        ),
        "settle" => Call::Settle(number(&mut words)?),
        "round" => Call::Round,
        "paid" => Call::Paid(number(&mut words)?, number(&mut words)?),
        "cash" => Call::Cash(number(&mut words)?),
        "due" => Call::Due(number(&mut words)?, number(&mut words)?),
        "next" => Call::Next,
        _ => return None,
    };
    words.next().is_none().then_some(call)
}

// The calls of an order, to be made.
pub fn parse_order(heap: Global, text: &str) -> Result<Vec<Task>, OrderError> {
    let mut tasks = Vec::new(heap);
    // lines are numbered from 1, and `enumerate` counts from 0
    for (i, line) in text.lines().enumerate() {
        let line = line.split_once('#').map_or(line, |(call, _)| call).trim();
        if !line.is_empty() {
            let call = parse_call(line).ok_or(OrderError::Line(i.saturating_add(1)))?;
            tasks.push(Task { call, answer: None })?;
        }
    }
    Ok(tasks)
}
