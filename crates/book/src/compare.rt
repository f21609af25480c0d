// Comparing sheets.
ghost use Rattle.std.specs.Prelude.{Decides};
ghost use Rattle.book.specs.Sheets.{SameOutcome};

use crate::sheet::Sheet;

// Whether two sheets have equal payments, equities and defaults.
pub fn equal_sheets(one: &Sheet, two: &Sheet) -> bool
    ensures { Decides result (SameOutcome one.now two.now) }
{
    one.paid == two.paid && one.equities == two.equities && one.defaults == two.defaults
}
