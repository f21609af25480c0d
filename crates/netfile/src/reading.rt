// Reading one record of a network file into a draft.
ghost use Rattle.std.specs.Prelude.{◌≡◌, ◌<◌, length};
ghost use Rattle.netfile.specs.Checks.{follows};
ghost use Rattle.netfile.specs.Reads.{Reads};

use crate::body::{claim_in, member_in};
use crate::due::Due;
use crate::kind::Kind;
use crate::record::Record;
use crate::rest::Rest;
use network::{Cause, Draft, Fault};

// Reads the record that the rest of a file begins with; answers what is due behind it.
pub(crate) fn read(draft: &mut Draft, rest: Rest, due: Due) -> Result<Due, Fault>
    requires { 0 < length rest.bytes.now }
    ensures { Reads draft.old.figures due rest.entry.byte rest.entry.bytes.now
        result draft.new.figures }
{
    match due {
        Due::Network => read_network(draft, rest),
        Due::Member(member) => read_member(draft, rest, member),
        Due::Claim(last) => read_claim(draft, rest, last),
        Due::Nothing => Err(rest.fault(Cause::NotDue)),
    }
}

// (Each reader tells the record that is due from others by itself, and count does as this one: a function for all could not
// lend a body of a kind that its caller names, and one for two is no shorter than its call.)
fn read_network(draft: &Draft, rest: Rest) -> Result<Due, Fault>
    ensures { Reads draft.now.figures Due.Network rest.entry.byte rest.entry.bytes.now
        result draft.now.figures }
{
    let Record::Network(body) = rest.first_record(Kind::Network, Kind::Network)? else {
        return Err(rest.fault(Cause::NotDue));
    };
    if body[0] != draft.count().get() {
        return Err(rest.fault(Cause::NotDue));
    }
    Ok(Due::Member(0))
}

fn read_member(draft: &mut Draft, rest: Rest, member: u8) -> Result<Due, Fault>
    ensures { Reads draft.old.figures (Due.Member member) rest.entry.byte rest.entry.bytes.now
        result draft.new.figures }
{
    let Record::Member(body) = rest.first_record(Kind::Member, Kind::Member)? else {
        return Err(rest.fault(Cause::NotDue));
    };
    let (number, entry) = member_in(body);
    if number != member {
        return Err(rest.fault(Cause::NotDue));
    }
    draft
        .enter_member(member, entry)
        .map_err(|fault| fault.at_byte(rest.byte))?;
    if member + 1 < draft.count().get() {
        Ok(Due::Member(member + 1))
    } else {
        Ok(Due::Claim(None))
    }
}

fn read_claim(draft: &mut Draft, rest: Rest, last: Option<(u8, u8)>) -> Result<Due, Fault>
    ensures { Reads draft.old.figures (Due.Claim last) rest.entry.byte rest.entry.bytes.now
        result draft.new.figures }
{
    let Record::Claim(body) = rest.first_record(Kind::Claim, Kind::End)? else {
        return Ok(Due::Nothing);
    };
    let (debtor, creditor, units) = claim_in(body);
    draft
        .enter_claim(debtor, creditor, units)
        .map_err(|fault| fault.at_byte(rest.byte))?;
    let pair = (debtor, creditor);
    if units == 0 || !follows(pair, last) {
        return Err(rest.fault(Cause::ClaimOrder));
    }
    Ok(Due::Claim(Some(pair)))
}

// Whether a claim is behind the last one: on a later debtor, or of a later creditor on the same.
fn follows(pair: (u8, u8), last: Option<(u8, u8)>) -> bool
    ensures { result ≡ follows last pair.0 pair.1 }
{
    last < Some(pair)
}
