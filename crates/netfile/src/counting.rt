// The number of members that a network file begins with.
ghost use Rattle.std.specs.Prelude.{◌≡◌, slice_index};
ghost use Rattle.network.specs.Answers.{Gives};
ghost use Rattle.netfile.specs.Records.{counted_fault};

use crate::kind::Kind;
use crate::record::Record;
use crate::rest::Rest;
use network::{Cause, Fault, MemberCount};

// Counts the members by the Network record alone.
pub fn count(file: &[u8]) -> Result<MemberCount, Fault>
    ensures { Gives (counted_fault file.now) (λ count. count.n ≡ slice_index file.now 1) (Unit {0}) result }
{
    let rest = Rest::of(file, 0);
    let Record::Network(body) = rest.first_record(Kind::Network, Kind::Network)? else {
        return Err(rest.fault(Cause::NotDue));
    };
    MemberCount::new(body[0])
}
