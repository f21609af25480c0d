// Counting the refusals in what is compared.
use std::alloc::{AllocError, Global};
use std::collections::BTreeMap;

// How often each fault came up, by its number.
#[derive(Drop)]
pub struct Refusals {
    times: BTreeMap<u8, u32>,
}

// The number of the fault that a line is, or that the call in it is answered by.
fn fault_of(line: &str) -> Option<u8> {
    let answer = line.split_once(": ").map_or(line, |(_, answer)| answer);
    let (number, _) = answer.strip_prefix("fault ")?.split_once(' ')?;
    number.parse::<u8>().ok()
}

impl Refusals {
    pub fn none(heap: Global) -> Refusals {
        Refusals {
            times: BTreeMap::new(heap),
        }
    }

    // Counts the refusals in the lines of a text.
    pub fn count(&mut self, text: &str) -> Result<(), AllocError> {
        for fault in text.lines().filter_map(fault_of) {
            let times = self.times.entry(fault)?.or_insert(0);
            *times = times.saturating_add(1);
        }
        Ok(())
    }

    pub fn times(&self, fault: u8) -> u32 {
        self.times.get(&fault).copied().unwrap_or(0)
    }
}
