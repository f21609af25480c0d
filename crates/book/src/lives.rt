// Whole lives of books: open, any calls in any order, and close.
ghost use Rattle.std.specs.Prelude.{◌≡◌};
ghost use Rattle.book.specs.Lives.{BothLives, Step, Works, calls_of};

use crate::book::Book;
use crate::call::{Answer, Call, Task};
use crate::sheet::Sheet;
use network::Draft;
use rules::Rulebook;

impl Book {
    // Makes one call.
    pub fn perform<R: Rulebook>(&mut self, rulebook: &R, call: Call) -> Answer
        ensures { Step (R.awarded rulebook.now) self.old call result self.new }
    {
        match call {
            Call::Pay(debtor, creditor, units) => {
                Answer::Units(self.pay(rulebook, debtor, creditor, units))
            }
            Call::Settle(member) => Answer::Units(self.settle(rulebook, member)),
            Call::Round => {
                let (units, passed) = self.round(rulebook);
                Answer::Rounded(units, passed)
            }
            Call::Paid(debtor, creditor) => Answer::Units(self.paid(debtor, creditor)),
            Call::Cash(member) => Answer::Units(self.cash(member)),
            Call::Due(debtor, creditor) => Answer::Units(self.due(rulebook, debtor, creditor)),
            Call::Next => Answer::Member(self.next(rulebook)),
        }
    }

    // Makes the calls in order, and notes each answer.
    pub fn work<R: Rulebook>(&mut self, rulebook: &R, tasks: &mut [Task])
        ensures works { Works (R.awarded rulebook.now) self.old tasks.new self.new }
        ensures calls { calls_of tasks.new ≡ calls_of tasks.old }
    {
        for task in tasks.iter_mut() {
            let answer = self.perform(rulebook, task.call);
            task.answer = Some(answer);
        }
    }
}

// Two lives under one rulebook: which calls are made in each, and in what order, decides nothing.
pub fn work_both<R: Rulebook>(
    first: Draft,
    second: Draft,
    rulebook: &R,
    tasks: &mut [Task],
    others: &mut [Task],
) -> (Sheet, Sheet)
    ensures lives { BothLives (R.awarded rulebook.now) first second tasks.new others.new result.0 result.1 }
    ensures calls { calls_of tasks.new ≡ calls_of tasks.old }
    ensures other_calls { calls_of others.new ≡ calls_of others.old }
{
    let mut one = Book::open(first);
    one.work(rulebook, tasks);
    let mut two = Book::open(second);
    two.work(rulebook, others);
    (one.close(rulebook), two.close(rulebook))
}
