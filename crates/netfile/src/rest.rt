// The rest of a network file, and the record that it begins with.
ghost use Rattle.std.specs.Prelude.{◌≡◌, ◌≤◌, length, drop, None};
ghost use Rattle.network.specs.Answers.{Gives};
ghost use Rattle.netfile.specs.Kinds.{number_of};
ghost use Rattle.netfile.specs.Records.{file_fault, kind, record_fault, IsRecord, IsRest};

use crate::fault::file_fault;
use crate::kind::Kind;
use crate::record::Record;
use network::{Cause, Fault};

// What stands in a file from a byte on.
#[derive(Clone, Copy)]
pub(crate) struct Rest<'a> {
    pub(crate) bytes: &'a [u8],
    pub(crate) byte: usize,
}

impl<'a> Rest<'a> {
    // The rest of a file: nothing past its end.
    pub(crate) fn of(file: &'a [u8], byte: usize) -> Rest<'a>
        ensures bytes { result.bytes.now ≡ drop byte file.now }
        ensures byte { result.byte ≡ byte }
        ensures place { byte ≤ length file.now → IsRest file.entry byte result.bytes }
    {
        // By an index: of a part that `get` gives, a proof does not know where in memory it stands.
        let bytes = if byte <= file.len() {
            &file[byte..]
        } else {
            &[]
        };
        Rest { bytes, byte }
    }

    // The record that the rest begins with; kinds from `low` to `high` are due there.
    pub(crate) fn first_record(self, low: Kind, high: Kind) -> Result<Record<'a>, Fault>
        ensures { Gives
            (record_fault (number_of low) (number_of high) self.entry.byte self.entry.bytes.now None)
            (IsRecord self.entry.bytes 0) (Unit {0}) result }
    {
        let kind = self.first_kind(low, high)?;
        let body = &self.bytes[1..kind.record_length()];
        match kind {
            Kind::Network => Ok(Record::Network(body)),
            Kind::Member => Ok(Record::Member(body)),
            Kind::Claim => Ok(Record::Claim(body)),
            Kind::End => Ok(Record::End),
        }
    }

    // The kind of that record, which is whole.
    pub(crate) fn first_kind(self, low: Kind, high: Kind) -> Result<Kind, Fault>
        ensures { Gives
            (record_fault (number_of low) (number_of high) self.entry.byte self.entry.bytes.now None)
            (λ found. number_of found ≡ kind self.entry.bytes.now) (Unit {0}) result }
    {
        let Rest { bytes, byte } = self;
        let number = bytes
            .first()
            .ok_or_else(|| file_fault(Cause::EndOfFile, byte))?;
        let kind = Kind::try_from(*number).map_err(|cause| file_fault(cause, byte))?;
        if kind < low || kind > high {
            return Err(self.fault(Cause::NotDue));
        }
        if bytes.len() < kind.record_length() {
            return Err(self.fault(Cause::EndOfFile));
        }
        Ok(kind)
    }

    // A fault of the file in that record.
    pub(crate) fn fault(self, cause: Cause) -> Fault
        ensures { result ≡ file_fault cause self.entry.byte }
    {
        file_fault(cause, self.byte)
    }
}
