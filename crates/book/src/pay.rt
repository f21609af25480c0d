// Paying one creditor.
ghost use Rattle.book.specs.Calls.{Pays};

use crate::book::Book;
use network::{Cause, Fault, Layer};
use rules::Rulebook;

impl Book {
    // Adds the units to one entry, and answers its new figure.
    pub fn pay<R: Rulebook>(
        &mut self,
        rulebook: &R,
        debtor: u8,
        creditor: u8,
        units: u32,
    ) -> Result<u32, Fault>
        ensures { Pays (R.awarded rulebook.now) self.old debtor creditor units result self.new }
    {
        let (payer, payee) = self.pair(debtor, creditor)?;
        if units == 0 {
            return Err(Fault::of_pair(Layer::Book, Cause::NoUnits, debtor, creditor));
        }
        let due = payer.due_row(rulebook, payer.estate());
        if payer.recedes(&due) {
            return Err(Fault::of_pair(Layer::Book, Cause::Receded, debtor, creditor));
        }
        let paid = payer.paid_to(payee);
        if units > due[creditor as usize] - paid {
            return Err(Fault::of_pair(Layer::Book, Cause::AboveDue, debtor, creditor));
        }
        self.paid[debtor as usize][creditor as usize] = paid + units;
        Ok(paid + units)
    }
}
