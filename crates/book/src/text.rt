// Calls on a book and their answers, as text.
ghost use Rattle.std.specs.Prelude.{Some};
ghost use Rattle.book.specs.Tasks.{answer_text, call_text, task_text};

use crate::call::{Answer, Call, Task};
use std::fmt;

// A call, as it stands in an order of work.
impl fmt::Display for Call {
    ghost output = { λ call. Some (call_text call) };

    fn fmt<W: fmt::Write>(&self, f: &mut fmt::Formatter<W>) -> fmt::Result {
        match *self {
            Call::Pay(debtor, creditor, units) => write!(f, "pay {debtor} {creditor} {units}"),
            Call::Settle(member) => write!(f, "settle {member}"),
            Call::Round => write!(f, "round"),
            Call::Paid(debtor, creditor) => write!(f, "paid {debtor} {creditor}"),
            Call::Cash(member) => write!(f, "cash {member}"),
            Call::Due(debtor, creditor) => write!(f, "due {debtor} {creditor}"),
            Call::Next => write!(f, "next"),
        }
    }
}

impl fmt::Display for Answer {
    ghost output = { λ answer. Some (answer_text answer) };

    fn fmt<W: fmt::Write>(&self, f: &mut fmt::Formatter<W>) -> fmt::Result {
        match *self {
            Answer::Units(Ok(units)) => write!(f, "{units}"),
            Answer::Units(Err(fault)) => write!(f, "{fault}"),
            Answer::Rounded(units, passed) => write!(f, "{units} {passed}"),
            Answer::Member(Some(member)) => write!(f, "{member}"),
            Answer::Member(None) => write!(f, "none"),
        }
    }
}

// A call with its answer behind it.
impl fmt::Display for Task {
    ghost output = { λ task. Some (task_text task) };

    fn fmt<W: fmt::Write>(&self, f: &mut fmt::Formatter<W>) -> fmt::Result {
        let call = self.call;
        match self.answer {
            Some(answer) => write!(f, "{call}: {answer}"),
            None => write!(f, "{call}: not made"),
        }
    }
}
