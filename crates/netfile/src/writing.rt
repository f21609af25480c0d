// Writing a draft as a network file.
ghost use Rattle.std.specs.Prelude.{◌≡◌, ◌+◌, ◌≤◌, count_by, length, nat_lt};
ghost use Rattle.std.specs.List.{flat_map};
ghost use Rattle.network.specs.Answers.{Gives};
ghost use Rattle.netfile.specs.Files.{members_of, row_of, claims_of, file_of};
ghost use Rattle.netfile.specs.Writes.{short_fault, Written, Sole, Put};

use crate::body::{claim_record, member_record};
use crate::fault::file_fault;
use crate::kind::Kind;
use crate::writer::Writer;
use network::{Cause, Draft, Fault, Figures};

// The length of a network's file.
pub fn file_length(figures: &Figures) -> usize
    ensures { result ≡ length (file_of figures.now) }
{
    let members = figures.n as usize * Kind::Member.record_length();
    let claims = claim_count(figures) * Kind::Claim.record_length();
    Kind::Network.record_length() + members + claims + Kind::End.record_length()
}

// The number of claims above 0, each of which has a record.
fn claim_count(figures: &Figures) -> usize
    ensures { result ≡ count_by (λ x. nat_lt 0 x) (flat_map (λ row. row) figures.now.claims) }
{
    let mut claims = 0;
    for row in &figures.claims {
        claims += row_count(row);
    }
    claims
}

// Those in one row. (A loop: a chain, even for each row, takes more than half as long again.)
fn row_count(row: &[u32; 32]) -> usize
    ensures { result ≡ count_by (λ x. nat_lt 0 x) row.now }
{
    let mut claims = 0;
    for units in row {
        if *units > 0 {
            claims += 1;
        }
    }
    claims
}

// Writes a draft's file into a buffer and answers its length; the bytes behind it stay.
pub fn write(draft: &Draft, buffer: &mut [u8]) -> Result<usize, Fault>
    ensures written { Gives (short_fault draft.now.figures buffer.old)
        (λ count. Written draft.now.figures buffer.old count buffer.new)
        (buffer.new ≡ buffer.old) result }
    ensures sole { Sole draft.now.figures }
{
    let figures = draft.figures();
    if buffer.len() < file_length(figures) {
        return Err(file_fault(Cause::ShortBuffer, 0));
    }
    let mut writer = Writer { buffer, end: 0 };
    writer.put(&[Kind::Network as u8, figures.n]);
    put_members(&mut writer, figures);
    put_claims(&mut writer, figures);
    writer.put(&[Kind::End as u8]);
    Ok(writer.end)
}

fn put_members(writer: &mut Writer, figures: &Figures)
    requires { writer.old.end + length (members_of figures.now) ≤ length writer.old.buffer.now }
    ensures same { writer.new.buffer.ghost_name ≡ writer.old.buffer.ghost_name }
    ensures put { Put writer.old.end (members_of figures.now) writer.old.buffer.now
        writer.new.end writer.new.buffer.now }
{
    let members = &figures.members[..figures.n as usize];
    for (member, entry) in members.iter().enumerate() {
        writer.put(&member_record(member as u8, *entry));
    }
}

fn put_claims(writer: &mut Writer, figures: &Figures)
    requires { writer.old.end + length (claims_of figures.now) ≤ length writer.old.buffer.now }
    ensures same { writer.new.buffer.ghost_name ≡ writer.old.buffer.ghost_name }
    ensures put { Put writer.old.end (claims_of figures.now) writer.old.buffer.now
        writer.new.end writer.new.buffer.now }
{
    for (debtor, row) in figures.claims.iter().enumerate() {
        put_row(writer, debtor as u8, row);
    }
}

// The claims on one debtor; a claim of 0 has no record.
fn put_row(writer: &mut Writer, debtor: u8, row: &[u32; 32])
    requires { writer.old.end + length (row_of debtor row.now) ≤ length writer.old.buffer.now }
    ensures same { writer.new.buffer.ghost_name ≡ writer.old.buffer.ghost_name }
    ensures put { Put writer.old.end (row_of debtor row.now) writer.old.buffer.now
        writer.new.end writer.new.buffer.now }
{
    for (creditor, units) in row.iter().enumerate() {
        if *units > 0 {
            writer.put(&claim_record(debtor, creditor as u8, *units));
        }
    }
}
