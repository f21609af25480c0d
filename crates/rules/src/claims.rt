// Lists of claims that an estate can be divided over.
ghost use Rattle.std.specs.Prelude.{◌≡◌, length, sum};
ghost use Rattle.network.specs.Answers.{Gives};
ghost use Rattle.rules.specs.Claims.{Admitted, awards_fault};

use crate::rulebook::check_claims;
use network::Fault;

// At most 32 claims, each of at most 10,000. The awards stay beside it, with their length in the contracts: of
// a `&mut` in a struct, each call would have to ensure that it is the same slice still, which is no shorter.
#[derive(Drop)]
pub(crate) struct ClaimList<'a> {
    pub(crate) list: &'a [u32],
    ghost admitted: { Admitted list.now },
}

impl<'a> ClaimList<'a> {
    // The list, if it passes the checks that every rulebook makes.
    pub(crate) fn check(list: &'a [u32], room: usize) -> Result<ClaimList<'a>, Fault>
        ensures { Gives (awards_fault list.now room)
            (λ claims. (claims.list.now ≡ list.now) × (room ≡ length list.now))
            (Unit {0}) result }
    {
        check_claims(list, room)?;
        Ok(ClaimList { list })
    }

    pub(crate) fn total(&self) -> u32
        ensures { result ≡ sum self.now.list.now }
    {
        self.list.iter().sum()
    }
}
