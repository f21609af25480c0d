// Counting what was compared, and keeping the first difference.
use crate::refusals::Refusals;
use anyhow::ensure;
use network::Cause;
use std::alloc::{AllocError, Global};
use std::fmt;

// A case that differs: its input, and what each side says.
#[derive(Drop)]
struct Difference {
    input: Vec<u8>,
    engine: String,
    other: String,
}

// The input in hexadecimal, and the two texts below it.
impl fmt::Display for Difference {
    fn fmt<W: fmt::Write>(&self, f: &mut fmt::Formatter<W>) -> fmt::Result {
        for byte in self.input.iter() {
            write!(f, "{byte:02x}")?;
        }
        let (engine, other) = (self.engine.as_str(), self.other.as_str());
        write!(f, "\nengine:\n{engine}\nother:\n{other}\n")
    }
}

// How many cases were compared and how many differ, the refusals in them, the first case that differs, and whether a
// case was lost for want of memory.
#[derive(Drop)]
pub struct Tally {
    pub heap: Global,
    compared: u32,
    differ: u32,
    refusals: Refusals,
    first: Option<Difference>,
    lost: bool,
}

impl fmt::Display for Tally {
    fn fmt<W: fmt::Write>(&self, f: &mut fmt::Formatter<W>) -> fmt::Result {
        let (compared, differ) = (self.compared, self.differ);
        write!(f, "{compared} compared, {differ} differ")
    }
}

impl Tally {
    pub fn new(heap: Global) -> Tally {
        Tally {
            heap,
            compared: 0,
            differ: 0,
            refusals: Refusals::none(heap),
            first: None,
            lost: false,
        }
    }

    // Compares what the engine and the other side say of an input. Where there is no memory for a text the case is lost,
    // and the others go on.
    pub fn compare(
        &mut self,
        input: &[u8],
        engine: Result<String, AllocError>,
        other: Result<String, AllocError>,
    ) {
        if self.note(input, engine, other).is_err() {
            self.lose();
        }
    }

    // Notes that there was no memory for a case.
    pub fn lose(&mut self) {
        self.lost = true;
    }

    fn note(
        &mut self,
        input: &[u8],
        engine: Result<String, AllocError>,
        other: Result<String, AllocError>,
    ) -> Result<(), AllocError> {
        let (engine, other) = (engine?, other?);
        self.compared = self.compared.saturating_add(1);
        // a difference is noted even where its refusals are not
        let counted = self.refusals.count(engine.as_str());
        if engine != other {
            self.differ = self.differ.saturating_add(1);
            if self.first.is_none() {
                self.first = Some(Difference {
                    input: input.to_vec(self.heap)?,
                    engine,
                    other,
                });
            }
        }
        counted
    }

    pub fn agrees(&self) -> bool {
        self.first.is_none()
    }

    // Prints the count, and if something differs the first difference and how often each of these faults came up. Ends with
    // an error if a case was lost.
    pub fn print(&self, rt: &impl Print, name: &str, faults: &[Cause]) -> anyhow::Result<()> {
        println!(rt; "{name}: {self}")?;
        if let Some(first) = &self.first {
            println!(rt; "the first that differs: {first}")?;
            for fault in faults {
                let number = fault.number();
                let times = self.refusals.times(number);
                println!(rt; "  refused by fault {number}: {times}")?;
            }
        }
        ensure!(!self.lost, "a case was lost for want of memory");
        Ok(())
    }
}
