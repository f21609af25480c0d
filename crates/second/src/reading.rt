// Reading a network file byte by byte.
use crate::cause::Cause;
use crate::network::{Member, Network};
use crate::refusal::{Named, Refusal};
use crate::row::Row;

#[derive(Clone, Copy)]
enum Kind {
    Network,
    Member,
    Claim,
    End,
}

impl Kind {
    fn body_length(self) -> usize {
        match self {
            Kind::Network => 1,
            Kind::Member => 7,
            Kind::Claim => 6,
            Kind::End => 0,
        }
    }
}

impl TryFrom<u8> for Kind {
    type Error = Cause;

    fn try_from(kind: u8) -> Result<Kind, Cause> {
        match kind {
            1 => Ok(Kind::Network),
            2 => Ok(Kind::Member),
            3 => Ok(Kind::Claim),
            4 => Ok(Kind::End),
            _ => Err(Cause::UnknownKind),
        }
    }
}

// What is due next.
#[derive(Clone, Copy)]
enum Due {
    Network,
    // so many members
    Members(u8),
    ClaimOrEnd,
    Nothing,
}

impl Due {
    // The kind of a record that begins here.
    fn kind_of(self, byte: u8) -> Result<Kind, Cause> {
        if let Due::Nothing = self {
            return Err(Cause::NotDue);
        }
        let kind = Kind::try_from(byte)?;
        match (self, kind) {
            (Due::Network, Kind::Network)
            | (Due::Members(_), Kind::Member)
            | (Due::ClaimOrEnd, Kind::Claim | Kind::End) => Ok(kind),
            _ => Err(Cause::NotDue),
        }
    }
}

// The record that is being read: its kind, its first byte, its body so far, and how many bytes it lacks. The body is a
// number: bytes that are put into an array one by one are read from it half as quickly.
#[derive(Clone, Copy)]
struct Record {
    kind: Kind,
    byte: usize,
    body: u64,
    missing: usize,
}

impl Record {
    fn new(kind: Kind, byte: usize) -> Record {
        Record {
            kind,
            byte,
            body: 0,
            missing: kind.body_length(),
        }
    }

    // Takes one more byte of the body.
    fn push(&mut self, value: u8) {
        self.body = self.body << 8 | u64::from(value);
        self.missing = self.missing.saturating_sub(1);
    }

    fn is_whole(&self) -> bool {
        self.missing == 0
    }

    fn in_file(&self, cause: Cause) -> Refusal {
        let byte = self.byte;
        Refusal::File { cause, byte }
    }

    fn in_draft(&self, cause: Cause, named: Named) -> Refusal {
        let byte = self.byte;
        Refusal::Draft { cause, byte, named }
    }
}

// The network as far as it is read, the claim that was read last, and the record that is being read.
#[derive(Clone, Copy)]
struct Reader {
    network: Network,
    due: Due,
    last: Option<(u8, u8)>,
    record: Option<Record>,
}

impl Reader {
    fn start() -> Reader {
        Reader {
            network: Network::default(),
            due: Due::Network,
            last: None,
            record: None,
        }
    }

    // A record begins with its kind.
    fn take(&mut self, byte: usize, value: u8) -> Result<(), Refusal> {
        match &mut self.record {
            Some(record) => record.push(value),
            None => {
                let kind = self.due.kind_of(value);
                let kind = kind.map_err(|cause| Refusal::File { cause, byte })?;
                self.record = Some(Record::new(kind, byte));
            }
        }
        match self.record.take_if(|record| record.is_whole()) {
            Some(record) => self.end(&record),
            None => Ok(()),
        }
    }

    // Takes what a whole record says.
    fn end(&mut self, record: &Record) -> Result<(), Refusal> {
        match (record.kind, record.body.to_be_bytes()) {
            (Kind::Network, [.., count]) => self.end_network(record, count)?,
            (Kind::Member, [_, given, house, class, a, b, c, d]) => {
                let member = Member {
                    house,
                    class,
                    endowment: u32::from_be_bytes([a, b, c, d]),
                    claims: Row::default(),
                };
                self.end_member(record, given, member)?
            }
            (Kind::Claim, [_, _, debtor, creditor, a, b, c, d]) => {
                let units = u32::from_be_bytes([a, b, c, d]);
                self.end_claim(record, debtor, creditor, units)?
            }
            (Kind::End, _) => self.due = Due::Nothing,
        }
        Ok(())
    }

    fn end_network(&mut self, record: &Record, count: u8) -> Result<(), Refusal> {
        if !(1..=32u8).contains(&count) {
            return Err(record.in_draft(Cause::MemberCount, Named::Nobody));
        }
        self.due = Due::Members(count);
        Ok(())
    }

    fn end_member(&mut self, record: &Record, given: u8, member: Member) -> Result<(), Refusal> {
        if usize::from(given) != self.network.count {
            return Err(record.in_file(Cause::NotDue));
        }
        if member.class > 7 {
            return Err(record.in_draft(Cause::ClassTooHigh, Named::Debtor(given)));
        }
        if member.endowment > 1_000_000 {
            return Err(record.in_draft(Cause::EndowmentTooLarge, Named::Debtor(given)));
        }
        self.network.add_member(member);
        self.due = match self.due {
            Due::Members(left) if left > 1 => Due::Members(left - 1),
            _ => Due::ClaimOrEnd,
        };
        Ok(())
    }

    fn end_claim(
        &mut self,
        record: &Record,
        debtor: u8,
        creditor: u8,
        units: u32,
    ) -> Result<(), Refusal> {
        let named = Named::Pair(debtor, creditor);
        if usize::from(debtor.max(creditor)) >= self.network.count {
            return Err(record.in_draft(Cause::NoSuchMember, named));
        }
        if debtor == creditor {
            return Err(record.in_draft(Cause::ClaimOnItself, named));
        }
        if units > 10_000 {
            return Err(record.in_draft(Cause::ClaimTooLarge, named));
        }
        if units == 0 || self.last >= Some((debtor, creditor)) {
            return Err(record.in_file(Cause::ClaimOrder));
        }
        self.last = Some((debtor, creditor));
        self.network
            .put_claim(usize::from(debtor), usize::from(creditor), units);
        Ok(())
    }
}

// The network whose file this is.
pub fn read(file: &[u8]) -> Result<Network, Refusal> {
    let mut reader = Reader::start();
    for (byte, value) in file.iter().enumerate() {
        reader.take(byte, *value)?;
    }
    match (reader.record, reader.due) {
        (None, Due::Nothing) => Ok(reader.network),
        (None, _) => Err(Refusal::File {
            cause: Cause::EndOfFile,
            byte: file.len(),
        }),
        (Some(record), _) => Err(record.in_file(Cause::EndOfFile)),
    }
}
