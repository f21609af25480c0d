// Refusals: what is wrong, in which layer, at which byte of a file, and who is named.
ghost use Rattle.std.specs.Prelude.{◌≡◌, Some};
ghost use Rattle.network.specs.Faults.{
  number_of,
  name_of,
  at_byte,
  of_nobody,
  of_member,
  of_pair,
  of_creditor,
  fault_text,
};

use std::fmt;

// Stands for a debtor or a creditor where a fault names none. (No Option: every fault has a number for each, which is 255 where
// none is named, as docs/FAULTS.md has it.)
pub const NOBODY: u8 = 255;

// The part of the engine that a refusal belongs to.
#[derive(Clone, Copy, PartialEq, Eq, Debug)]
pub enum Layer {
    File,
    Draft,
    Book,
    Rule,
}

impl Layer {
    // The name by which a layer is printed, for whom takes it as a text.
    pub fn name(self) -> &'static str
        ensures { result.now ≡ name_of self }
    {
        match self {
            Layer::File => "file",
            Layer::Draft => "draft",
            Layer::Book => "book",
            Layer::Rule => "rule",
        }
    }
}

impl fmt::Display for Layer {
    ghost output = { λ l. Some (name_of l) };

    fn fmt<W: fmt::Write>(&self, f: &mut fmt::Formatter<W>) -> fmt::Result {
        f.write_str(self.name())
    }
}

// What is wrong, each case with its fixed number.
#[derive(Clone, Copy, PartialEq, Eq, Debug)]
pub enum Cause {
    // a network has 1 to 32 members
    MemberCount = 1,
    // a member number is not below the number of members
    NoSuchMember = 2,
    // a class is above 7
    ClassTooHigh = 3,
    // an endowment is above 1,000,000 units
    EndowmentTooLarge = 4,
    // a debtor is its own creditor
    ClaimOnItself = 5,
    // a claim is entered that is above 10,000 units
    ClaimTooLarge = 6,
    // a payment of 0 units
    NoUnits = 7,
    // the debtor has paid some creditor more than is due now
    Receded = 8,
    // a payment is above what is due and not yet paid
    AboveDue = 9,
    // a list of more than 32 claims, or a buffer of another length than the list
    ListLength = 10,
    // a list has a claim above 10,000 units
    ListedClaimTooLarge = 11,
    // the file ends inside a record, or before its End record
    EndOfFile = 12,
    // no record has this kind
    UnknownKind = 13,
    // a record's kind or its member number is not due at its place
    NotDue = 14,
    // a claim record has 0 units, or does not follow the one before it in order
    ClaimOrder = 15,
    // the buffer is too short for the file
    ShortBuffer = 16,
}

impl Cause {
    pub fn number(self) -> u8
        ensures { result ≡ number_of self }
    {
        self as u8
    }
}

// A refusal. `byte` is the first of the record that it was met in, and 0 outside files; `debtor` and
// `creditor` are the members of the call or record, and `NOBODY` where none is named.
#[derive(Clone, Copy, PartialEq, Eq, Debug)]
pub struct Fault {
    pub cause: Cause,
    pub layer: Layer,
    pub byte: usize,
    pub debtor: u8,
    pub creditor: u8,
}

impl Fault {
    pub fn of_nobody(layer: Layer, cause: Cause) -> Fault
        ensures { result ≡ of_nobody layer cause }
    {
        Fault::of_pair(layer, cause, NOBODY, NOBODY)
    }

    // A single member stands as debtor.
    pub fn of_member(layer: Layer, cause: Cause, member: u8) -> Fault
        ensures { result ≡ of_member layer cause member }
    {
        Fault::of_pair(layer, cause, member, NOBODY)
    }

    pub fn of_creditor(layer: Layer, cause: Cause, creditor: u8) -> Fault
        ensures { result ≡ of_creditor layer cause creditor }
    {
        Fault::of_pair(layer, cause, NOBODY, creditor)
    }

    pub fn of_pair(layer: Layer, cause: Cause, debtor: u8, creditor: u8) -> Fault
        ensures { result ≡ of_pair layer cause debtor creditor }
    {
        Fault {
            cause,
            layer,
            byte: 0,
            debtor,
            creditor,
        }
    }

    // The same fault, met in the record that begins at a byte.
    pub fn at_byte(self, byte: usize) -> Fault
        ensures { result ≡ at_byte byte self }
    {
        Fault { byte, ..self }
    }
}

// A fault as every program prints it: its number, layer and byte, and whom it names.
impl fmt::Display for Fault {
    ghost output = { λ e. Some (fault_text e) };

    fn fmt<W: fmt::Write>(&self, f: &mut fmt::Formatter<W>) -> fmt::Result {
        let number = self.cause.number();
        let layer = self.layer;
        let byte = self.byte;
        let debtor = self.debtor;
        let creditor = self.creditor;
        write!(f, "fault {number} {layer} {byte} {debtor} {creditor}")
    }
}
