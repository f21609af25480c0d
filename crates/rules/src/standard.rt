// What a standard is: the score by which a creditor competes for its next unit.
ghost use Rattle.std.specs.Prelude.{◌≡◌, ℕ, ◌≤◌, IsTrue};
ghost use Rattle.rules.specs.Standards.{Scoring, Measured, out_of_reach};
ghost use Rattle.rules.specs.Theorems.{NeverRises};

// A standard answers scores as fractions, numerator and denominator. It never changes.
pub trait Standard {
    // The largest numerator and the largest denominator that it answers.
    const MAX_NUMERATOR: u32;

    const MAX_DENOMINATOR: u32;

    // The same two numbers, for the laws.
    ghost MAX_NUMERATOR: { ℕ };

    ghost MAX_DENOMINATOR: { ℕ };

    // The score of each creditor, by its number, its claim and the units that it holds.
    ghost scored: { Self → Scoring };

    fn score(&self, creditor: u8, claim: u32, held: u32) -> (u32, u32)
        ensures { result ≡ scored self.now creditor claim held };

    // Whether no score rises with the units held. A standard that does not say so is served one unit at a
    // time.
    fn never_rises(&self) -> bool
        ensures { IsTrue result → NeverRises (scored self.now) }
    {
        false
    }

    // A guess of what each creditor holds of so many units, in the place of the zeros in `awards`: by
    // default none. Nothing is promised of a guess, since the unit rule checks it.
    fn guess(&self, _units: u32, _claims: &[u32], _awards: &mut [u32]) {}

    ghost small: { (MAX_NUMERATOR ≤ 65535) × (MAX_DENOMINATOR ≤ 65535) };

    ghost measured: { (s : Self) → Measured (scored s) MAX_NUMERATOR MAX_DENOMINATOR };
}

// Whether there is nothing to compete for: no such creditor, no such claim, or a claim that is met. (Each
// standard asks this first: what it answers then is its author's one call.)
pub fn out_of_reach(creditor: u8, claim: u32, held: u32) -> bool
    ensures { result ≡ out_of_reach creditor claim held }
{
    creditor > 31 || claim > 10_000 || held >= claim
}
