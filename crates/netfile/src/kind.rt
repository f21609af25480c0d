// The kinds of records.
ghost use Rattle.std.specs.Prelude.{◌≡◌, ◌+◌};
ghost use Rattle.netfile.specs.Kinds.{number_of, IsKind};
ghost use Rattle.netfile.specs.Records.{body_length};

use network::Cause;

// The length of a record's body by the number of its kind, in one table for the reader and the writer; no record
// has kind 0.
pub const BODY_LENGTHS: [usize; 5] = [0, 1, 7, 6, 0];

// A kind of record, each with the number that stands for it in a file.
#[derive(Clone, Copy, PartialEq, Eq, PartialOrd, Ord)]
pub(crate) enum Kind {
    Network = 1,
    Member = 2,
    Claim = 3,
    End = 4,
}

impl Kind {
    // The length of a record of this kind, with its byte of kind.
    pub(crate) fn record_length(self) -> usize
        ensures { result ≡ 1 + body_length (number_of self) }
    {
        1 + BODY_LENGTHS[self as usize]
    }
}

impl TryFrom<u8> for Kind {
    type Error = Cause;

    ghost try_from_gives = { IsKind };

    fn try_from(number: u8) -> Result<Kind, Cause> {
        match number {
            1 => Ok(Kind::Network),
            2 => Ok(Kind::Member),
            3 => Ok(Kind::Claim),
            4 => Ok(Kind::End),
            _ => Err(Cause::UnknownKind),
        }
    }
}
