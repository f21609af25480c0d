// Rows of units, one entry for each member.
ghost use Rattle.std.specs.Prelude.{◌≡◌, slice_index};

// From place 32 on a row is 0, and what is put there is lost. A row is a plain value of a fixed width, so that
// nothing that is done with it can run out of memory.
#[derive(Clone, Copy, Default)]
pub struct Row {
    units: [u32; 32],
}

// The row that is lent where there is none.
pub(crate) static BLANK: Row = Row { units: [0; 32] };

impl Row {
    pub(crate) fn as_slice(&self) -> &[u32] {
        &self.units
    }

    pub fn at(&self, member: usize) -> u32
        ensures { result ≡ slice_index self.now.units member }
    {
        self.units.get(member).copied().unwrap_or(0)
    }

    pub(crate) fn put(&mut self, member: usize, units: u32) {
        if let Some(entry) = self.units.get_mut(member) {
            *entry = units;
        }
    }

    pub(crate) fn add_unit(&mut self, member: usize) {
        self.put(member, self.at(member).saturating_add(1));
    }

    // (This fold stands where a total is wanted: over any iterator it would have to ask that the iterator ends.)
    pub(crate) fn total(&self) -> u32 {
        self.units.iter().copied().fold(0, u32::saturating_add)
    }

    // Whether one of the first entries is above the other row's.
    pub(crate) fn exceeds(&self, other: &Row, entries: usize) -> bool {
        self.units
            .iter()
            .zip(other.units.iter())
            .take(entries)
            .any(|(units, others)| units > others)
    }
}
