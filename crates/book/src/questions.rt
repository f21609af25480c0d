// The questions, which change nothing.
ghost use Rattle.book.specs.Calls.{ShowsCash, ShowsDue, ShowsNext, ShowsPaid};

use crate::book::Book;
use network::Fault;
use rules::Rulebook;

impl Book {
    // What a debtor has paid a creditor.
    pub fn paid(&self, debtor: u8, creditor: u8) -> Result<u32, Fault>
        ensures { ShowsPaid self.now debtor creditor result }
    {
        let (debtor, creditor) = self.pair(debtor, creditor)?;
        Ok(debtor.paid_to(creditor))
    }

    // What a member has left.
    pub fn cash(&self, member: u8) -> Result<u32, Fault>
        ensures { ShowsCash self.now member result }
    {
        Ok(self.member(member)?.cash())
    }

    // What the rulebook awards a creditor of a debtor's estate.
    pub fn due<R: Rulebook>(&self, rulebook: &R, debtor: u8, creditor: u8) -> Result<u32, Fault>
        ensures { ShowsDue (R.awarded rulebook.now) self.now debtor creditor result }
    {
        let (debtor, creditor) = self.pair(debtor, creditor)?;
        let due = debtor.due_row(rulebook, debtor.estate());
        Ok(due[creditor.at])
    }

    // The lowest-numbered member whose settle would pay, if any.
    pub fn next<R: Rulebook>(&self, rulebook: &R) -> Option<u8>
        ensures { ShowsNext (R.awarded rulebook.now) self.now result }
    {
        (0..self.figures.n).find(|member| self.seat(*member as usize).would_pay(rulebook))
    }
}
