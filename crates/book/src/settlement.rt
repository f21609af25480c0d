// What a settle of one member comes to.

// The units that it moves, and the row that it leaves.
#[derive(Clone, Copy)]
pub(crate) struct Settlement {
    pub(crate) units: u32,
    pub(crate) row: [u32; 32],
}
