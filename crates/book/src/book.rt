// The book: a network's figures and what is paid so far.
ghost use Rattle.std.specs.Prelude.{◌≡◌, ℕ, ◌<◌, [], length, slice_index_or};
ghost use Rattle.book.specs.Tables.{Capped, Solvent, cells, network_of};

use network::Figures;

// A book, which closing uses up. `paid[i][j]` is what debtor i has paid creditor j: at most the claim,
// and for each debtor in sum at most its estate, whatever rulebooks the book is worked under. (A table of a fixed
// width, and so are all rows of the book: no call on it may run out of memory.)
#[derive(Drop)]
pub struct Book {
    pub(crate) figures: Figures,
    pub(crate) paid: [[u32; 32]; 32],
    ghost rows: { length paid ≡ 32 },
    ghost columns: { (i : ℕ) → i < 32 → length (slice_index_or paid i []) ≡ 32 },
    ghost capped: { Capped (network_of figures) (cells paid) },
    ghost solvent: { Solvent (network_of figures) (cells paid) },
}
