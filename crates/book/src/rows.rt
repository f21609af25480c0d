// A member's row of payments and its column, and what they come to.
ghost use Rattle.std.specs.Prelude.{◌≡◌, ℕ, ◌<◌, ◌≤◌, ◌^◌, [], sum, sum_by, nat_lt, slice_index, slice_index_or};
ghost use Rattle.clearing.specs.Networks.{owed, total};
ghost use Rattle.book.specs.Views.{cash_of, estate_of, net_of, outlay_of, payments_of};

use crate::seat::Seat;

// All entries of a row together.
fn sum_of(row: &[u32]) -> u32
    requires { sum row.now < 2 ^ 32 }
    ensures { result ≡ sum row.now }
{
    row.iter().sum()
}

// The first n entries of a row together.
pub(crate) fn row_total(row: &[u32; 32], n: u8) -> u32
    requires few { n ≤ 32 }
    requires small { (j : ℕ) → slice_index row.now j ≤ 10000 }
    ensures { result ≡ total n (λ j. slice_index row.now j) }
{
    sum_of(&row[..n as usize])
}

// The entries of a column together.
fn column_of(rows: &[[u32; 32]], at: usize) -> u32
    requires inside { at < 32 }
    requires fits { sum_by (λ row. slice_index row at) rows.now < 2 ^ 32 }
    ensures { result ≡ sum_by (λ row. slice_index row at) rows.now }
{
    rows.iter().map(|row| row[at]).sum()
}

impl<'a> Seat<'a> {
    // What the member has paid each creditor.
    pub(crate) fn row(&self) -> &'a [u32; 32]
        ensures { result.now ≡ slice_index_or self.now.book.now.paid self.now.at [] }
    {
        &self.book.paid[self.at]
    }

    // What the member has paid a creditor.
    pub(crate) fn paid_to(&self, creditor: Seat) -> u32
        ensures { result ≡ payments_of self.now.book.now self.now.at creditor.entry.at }
    {
        self.row()[creditor.at]
    }

    // Its endowment and all that was paid to it.
    pub(crate) fn estate(&self) -> u32
        ensures value { result ≡ estate_of self.now.book.now self.now.at }
        ensures bound { result ≤ 1320000 }
    {
        let n = self.book.figures.n as usize;
        let received = column_of(&self.book.paid[..n], self.at);
        self.book.figures.members[self.at].endowment + received
    }

    // All that it has paid.
    pub(crate) fn outlay(&self) -> u32
        ensures { result ≡ outlay_of self.now.book.now self.now.at }
    {
        row_total(self.row(), self.book.figures.n)
    }

    // Whether a member sits there.
    fn taken(&self) -> bool
        ensures { result ≡ nat_lt self.now.at self.now.book.now.figures.n }
    {
        self.at < self.book.figures.n as usize
    }

    // What it has left.
    pub(crate) fn cash(&self) -> u32
        ensures { result ≡ cash_of self.now.book.now self.now.at }
    {
        self.estate() - self.outlay()
    }

    // The same, and 0 where none sits with nothing summed: in a small network most seats are empty.
    pub(crate) fn equity(&self) -> u32
        ensures { result ≡ cash_of self.now.book.now self.now.at }
    {
        if self.taken() { self.cash() } else { 0 }
    }

    // Whether it has paid in total less than the claims on it.
    pub(crate) fn defaults(&self) -> bool
        ensures { result ≡ nat_lt (outlay_of self.now.book.now self.now.at) (owed (net_of self.now.book.now) self.now.at) }
    {
        self.taken()
            && self.outlay() < row_total(&self.book.figures.claims[self.at], self.book.figures.n)
    }
}
