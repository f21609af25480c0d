// What the bodies of Member and Claim records hold, and the records of a member and of a claim.
ghost use Rattle.std.specs.Prelude.{◌≡◌, length, slice_index};
ghost use Rattle.netfile.specs.Files.{number_at, member_record, claim_record};

use crate::kind::Kind;
use network::Member;

// The member's number and its entry. (No From, which could not ask for the length of the body.)
pub(crate) fn member_in(body: &[u8]) -> (u8, Member)
    requires { length body.now ≡ 7 }
    ensures number { result.0 ≡ slice_index body.now 0 }
    ensures house { result.1.house ≡ slice_index body.now 1 }
    ensures class { result.1.class ≡ slice_index body.now 2 }
    ensures endowment { result.1.endowment ≡ number_at body.now 3 }
{
    let endowment = u32::from_be_bytes([body[3], body[4], body[5], body[6]]);
    (
        body[0],
        Member {
            house: body[1],
            class: body[2],
            endowment,
        },
    )
}

// The debtor, the creditor and the units of a claim.
pub(crate) fn claim_in(body: &[u8]) -> (u8, u8, u32)
    requires { length body.now ≡ 6 }
    ensures debtor { result.0 ≡ slice_index body.now 0 }
    ensures creditor { result.1 ≡ slice_index body.now 1 }
    ensures units { result.2 ≡ number_at body.now 2 }
{
    let units = u32::from_be_bytes([body[2], body[3], body[4], body[5]]);
    (body[0], body[1], units)
}

pub(crate) fn member_record(member: u8, entry: Member) -> [u8; 8]
    ensures { result ≡ member_record member entry }
{
    let [a, b, c, d] = entry.endowment.to_be_bytes();
    [
        Kind::Member as u8,
        member,
        entry.house,
        entry.class,
        a,
        b,
        c,
        d,
    ]
}

pub(crate) fn claim_record(debtor: u8, creditor: u8, units: u32) -> [u8; 7]
    ensures { result ≡ claim_record debtor creditor units }
{
    let [a, b, c, d] = units.to_be_bytes();
    [Kind::Claim as u8, debtor, creditor, a, b, c, d]
}
