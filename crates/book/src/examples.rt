// Settled examples of rules and books.
ghost use Rattle.book.specs.Examples.{Examples};

use rules::examples_stand;

// The examples hold of the definitions.
pub fn worked_examples_stand()
    ensures { Examples }
{
    examples_stand();
}
