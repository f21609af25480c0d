// Opening a book.
ghost use Rattle.book.specs.Calls.{Opens};

use crate::book::Book;
use network::Draft;

impl Book {
    // A book with no payments. It uses up the draft.
    pub fn open(draft: Draft) -> Book
        ensures { Opens draft result }
    {
        Book {
            figures: draft.into_figures(),
            paid: [[0; 32]; 32],
        }
    }
}
