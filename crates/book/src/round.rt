// Rounds: everyone settles in order.
ghost use Rattle.book.specs.Calls.{GoesRound};
ghost use Rattle.book.specs.Rests.{Rests};
ghost use Rattle.book.specs.Visits.{Kept};

use crate::book::Book;
use crate::visits::Tally;
use rules::Rulebook;

impl Book {
    // Settles members 0 to n - 1 in order and passes over those that have receded. Answers the units
    // moved and the members passed over. (A pair, which is the form of a round's answer.)
    pub fn round<R: Rulebook>(&mut self, rulebook: &R) -> (u32, u8)
        ensures { GoesRound (R.awarded rulebook.now) self.old result self.new }
    {
        let mut tallies = self.no_visits();
        self.visit_all(rulebook, &mut tallies)
    }

    // The same by visits, which leave alone whom no change concerns since its last visit.
    fn visit_all<R: Rulebook>(&mut self, rulebook: &R, tallies: &mut [Tally; 32]) -> (u32, u8)
        requires { Kept (R.awarded rulebook.now) self.old tallies.old }
        ensures round { GoesRound (R.awarded rulebook.now) self.old result self.new }
        ensures kept { Kept (R.awarded rulebook.now) self.new tallies.new }
    {
        let mut units = 0;
        let mut passed = 0;
        for m in 0..self.figures.n {
            match self.visit(rulebook, tallies, m) {
                Some(moved) => units += moved,
                None => passed += 1,
            }
        }
        (units, passed)
    }

    // Rounds until one moves nothing. Answers the rounds that moved units, the units moved, and the
    // members that the last round passed over.
    pub(crate) fn come_to_rest<R: Rulebook>(&mut self, rulebook: &R) -> (u32, u32, u8)
        ensures { Rests (R.awarded rulebook.now) self.old result.0 result.1 result.2 self.new }
    {
        let mut tallies = self.no_visits();
        let mut rounds = 0;
        let mut units = 0;
        loop {
            let (moved, passed) = self.visit_all(rulebook, &mut tallies);
            if moved == 0 {
                return (rounds, units, passed);
            }
            rounds += 1;
            units += moved;
        }
    }
}
