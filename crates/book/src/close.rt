// Closing a book.
ghost use Rattle.std.specs.Prelude.{◌≡◌, ℕ, false, nat_lt, slice_index, slice_index_or};
ghost use Rattle.clearing.specs.Networks.{owed};
ghost use Rattle.book.specs.Calls.{Ends};
ghost use Rattle.book.specs.Lives.{WhateverTheOrder};
ghost use Rattle.book.specs.Views.{cash_of, net_of, outlay_of};

use crate::book::Book;
use crate::sheet::Sheet;
use rules::Rulebook;

impl Book {
    // Each member's cash, and 0 past them.
    fn equities(&self) -> [u32; 32]
        ensures { (i : ℕ) → slice_index result i ≡ cash_of self.now i }
    {
        std::array::from_fn(|at| self.seat(at).equity())
    }

    // Which members default, none past them.
    fn defaults(&self) -> [bool; 32]
        ensures { (i : ℕ) → slice_index_or result i false ≡ nat_lt (outlay_of self.now i) (owed (net_of self.now) i) }
    {
        std::array::from_fn(|at| self.seat(at).defaults())
    }

    // Does rounds until one moves nothing, and answers the sheet. It uses up the book. Whatever calls
    // were made on the book, in whatever order, the sheet's payments are the least clearing matrix.
    pub fn close<R: Rulebook>(mut self, rulebook: &R) -> Sheet
        ensures ends { Ends (R.awarded rulebook.now) self result }
        ensures order { WhateverTheOrder (R.awarded rulebook.now) self result }
    {
        let (rounds, units, passed_over) = self.come_to_rest(rulebook);
        let equities = self.equities();
        let defaults = self.defaults();
        let Book { figures, paid } = self;
        Sheet {
            figures,
            paid,
            equities,
            defaults,
            rounds,
            units,
            passed_over,
        }
    }
}
