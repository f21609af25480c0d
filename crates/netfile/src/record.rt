// The records of a network file.
ghost use Rattle.std.specs.Prelude.{◌≡◌, ◌+◌, drop, None};
ghost use Rattle.network.specs.Answers.{Gives};
ghost use Rattle.netfile.specs.Records.{record_fault, record_length, IsRecord, IsRest};

use crate::kind::Kind;
use crate::rest::Rest;
use network::Fault;

// A record: its kind, and its body as a part of the file.
#[derive(Clone, Copy, PartialEq, Eq, Debug)]
pub enum Record<'a> {
    Network(&'a [u8]),
    Member(&'a [u8]),
    Claim(&'a [u8]),
    End,
}

// The record that begins at a byte of a file.
pub fn record_at<'a>(file: &'a [u8], byte: usize) -> Result<Record<'a>, Fault>
    ensures { Gives (record_fault 1 4 byte (drop byte file.now) None) (IsRecord file.entry byte) (Unit {0}) result }
{
    Rest::of(file, byte).first_record(Kind::Network, Kind::End)
}

// The rest of a file after the record that begins at a byte.
pub fn rest_after<'a>(file: &'a [u8], byte: usize) -> Result<&'a [u8], Fault>
    ensures { Gives (record_fault 1 4 byte (drop byte file.now) None)
        (IsRest file.entry (byte + record_length (drop byte file.now))) (Unit {0}) result }
{
    let rest = Rest::of(file, byte);
    let kind = rest.first_kind(Kind::Network, Kind::End)?;
    Ok(&rest.bytes[kind.record_length()..])
}
