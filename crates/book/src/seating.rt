// Finding the seats that a caller names.
ghost use Rattle.std.specs.Prelude.{◌≡◌, ◌<◌};
ghost use Rattle.network.specs.Answers.{Gives};
ghost use Rattle.book.specs.Calls.{member_fault, pair_fault};
ghost use Rattle.book.specs.Seats.{IsSeat};

use crate::book::Book;
use crate::seat::Seat;
use network::{Cause, Fault, Layer};

impl Book {
    // A seat by its number.
    pub(crate) fn seat(&self, at: usize) -> Seat
        requires { at < 32 }
        ensures book { result.book.now ≡ self.now }
        ensures number { result.at ≡ at }
    {
        Seat { book: self, at }
    }

    // A member's seat.
    pub(crate) fn member(&self, member: u8) -> Result<Seat, Fault>
        ensures { Gives (member_fault self.now member) (λ seat. IsSeat self.now member seat × (member < self.now.figures.n)) (Unit {0}) result }
    {
        if member >= self.figures.n {
            return Err(Fault::of_member(Layer::Book, Cause::NoSuchMember, member));
        }
        Ok(self.seat(member as usize))
    }

    // The seats of a debtor and a creditor.
    pub(crate) fn pair(&self, debtor: u8, creditor: u8) -> Result<(Seat, Seat), Fault>
        ensures { Gives (pair_fault self.now debtor creditor) (λ seats. IsSeat self.now debtor seats.0 × IsSeat self.now creditor seats.1 × (debtor < self.now.figures.n) × (creditor < self.now.figures.n)) (Unit {0}) result }
    {
        if debtor >= self.figures.n || creditor >= self.figures.n {
            return Err(Fault::of_pair(Layer::Book, Cause::NoSuchMember, debtor, creditor));
        }
        Ok((self.seat(debtor as usize), self.seat(creditor as usize)))
    }
}
