// The seats of a book. There are 32, and its members sit on the first of them.
ghost use Rattle.std.specs.Prelude.{◌<◌};

use crate::book::Book;

// One seat: what a book holds of the member there, and nothing where none sits.
#[derive(Clone, Copy)]
pub(crate) struct Seat<'a> {
    pub(crate) book: &'a Book,
    pub(crate) at: usize,
    ghost inside: { at < 32 },
}
