// The figures of a network: who its members are, and what they claim of one another.
ghost use Rattle.std.specs.Prelude.{◌≡◌, ℕ, ◌<◌, ◌≤◌, [], length, slice_index_or};
ghost use Rattle.network.specs.Limits.{MembersFit, ClaimsFit, ClaimsAllowed};

// The most members that a network may have.
pub const MEMBERS: usize = 32;

// What is entered of one member: the house that picks its division rule, its class as a creditor, and
// the units that it has before any payment.
#[derive(Clone, Copy, PartialEq, Eq, Debug)]
pub struct Member {
    pub house: u8,
    pub class: u8,
    pub endowment: u32,
}

// The entries of a network of `n` members; `claims[i][j]` is the claim of creditor j on debtor i.
// Every entry at or past `n` is 0, so equal networks have equal figures. (Tables of a fixed width and no Vec: making a draft
// cannot fail, so it may not allocate.)
#[derive(Clone, Copy)]
pub struct Figures {
    pub n: u8,
    pub members: [Member; 32],
    pub claims: [[u32; 32]; 32],
    ghost some: { 1 ≤ n },
    ghost few: { n ≤ 32 },
    ghost table: { length members ≡ 32 },
    ghost rows: { length claims ≡ 32 },
    ghost columns: { (i : ℕ) → i < 32 → length (slice_index_or claims i []) ≡ 32 },
    ghost fit: { MembersFit n members },
    ghost small: { ClaimsFit claims },
    ghost allowed: { ClaimsAllowed n claims },
}
