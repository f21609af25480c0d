// Writing records of a network file, right or wrong. (By numbers of its own: what is compared is not written by the engine.)
use std::alloc::{AllocError, Global};

// A file in the making.
#[derive(Drop)]
pub struct Records {
    bytes: Vec<u8>,
}

impl Records {
    pub fn new(heap: Global) -> Records {
        Records {
            bytes: Vec::new(heap),
        }
    }

    pub fn push_network(&mut self, n: u8) -> Result<(), AllocError> {
        self.bytes.extend_from_slice(&[1, n])
    }

    // (Its numbers one by one: they may be past what a member can have.)
    pub fn push_member(
        &mut self,
        member: u8,
        house: u8,
        class: u8,
        endowment: u32,
    ) -> Result<(), AllocError> {
        let [a, b, c, d] = endowment.to_be_bytes();
        self.bytes
            .extend_from_slice(&[2, member, house, class, a, b, c, d])
    }

    pub fn push_claim(&mut self, debtor: u8, creditor: u8, units: u32) -> Result<(), AllocError> {
        let [a, b, c, d] = units.to_be_bytes();
        self.bytes
            .extend_from_slice(&[3, debtor, creditor, a, b, c, d])
    }

    // The whole file, with its end.
    pub fn finish(mut self) -> Result<Vec<u8>, AllocError> {
        self.bytes.push(4)?;
        Ok(self.bytes)
    }
}
