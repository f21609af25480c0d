// The number of members that a draft is made for.
ghost use Rattle.std.specs.Prelude.{◌≡◌, ◌≤◌};
ghost use Rattle.network.specs.Answers.{Gives};
ghost use Rattle.network.specs.Refusals.{count_fault};

use crate::fault::{Cause, Fault, Layer};
use crate::figures::Figures;

// An accepted number of members, from 1 to 32.
#[derive(Clone, Copy, PartialEq, Eq, Debug)]
pub struct MemberCount {
    n: u8,
    ghost some: { 1 ≤ n },
    ghost few: { n ≤ 32 },
}

impl MemberCount {
    pub fn new(n: u8) -> Result<MemberCount, Fault>
        ensures { Gives (count_fault n) (λ count. count.n ≡ n) (Unit {0}) result }
    {
        if n == 0 || n > 32 {
            return Err(Fault::of_nobody(Layer::Draft, Cause::MemberCount));
        }
        Ok(MemberCount { n })
    }

    // The count that figures were made for.
    pub fn of(figures: &Figures) -> MemberCount
        ensures { result.n ≡ figures.now.n }
    {
        MemberCount { n: figures.n }
    }

    pub fn get(self) -> u8
        ensures { result ≡ self.n }
    {
        self.n
    }
}
