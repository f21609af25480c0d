// Settling one member.
ghost use Rattle.book.specs.Calls.{Settles};

use crate::book::Book;
use crate::settlement::Settlement;
use network::{Cause, Fault, Layer};
use rules::Rulebook;

impl Book {
    // Makes a member's row its due row, and answers the units moved.
    pub fn settle<R: Rulebook>(&mut self, rulebook: &R, member: u8) -> Result<u32, Fault>
        ensures { Settles (R.awarded rulebook.now) self.old member result self.new }
    {
        let seat = self.member(member)?;
        let Some(settlement) = seat.settlement(rulebook, seat.estate()) else {
            return Err(Fault::of_member(Layer::Book, Cause::Receded, member));
        };
        let Settlement { units, row } = settlement;
        self.paid[member as usize] = row;
        Ok(units)
    }
}
