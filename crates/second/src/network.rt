// A network as it stands in a file.
ghost use Rattle.std.specs.Prelude.{◌≡◌, take};

use crate::row::Row;

// A member, with the claims on it.
#[derive(Clone, Copy, Default)]
pub struct Member {
    pub house: u8,
    pub class: u8,
    pub endowment: u32,
    pub claims: Row,
}

// How many members there are, and what is entered of them. The members stand in an array and in no Vec, so that reading
// a network cannot run out of memory. Whoever sets the count changes who is lent, worked and printed: classes, claims and
// endowments are those of all 32 places.
#[derive(Clone, Copy, Default)]
pub struct Network {
    pub count: usize,
    pub(crate) members: [Member; 32],
}

impl Network {
    pub fn members(&self) -> &[Member]
        ensures { result.now ≡ take self.now.count self.now.members }
    {
        &self.members[..self.count.min(32)]
    }

    // Adds a member behind the last one; a 33rd member is lost.
    pub(crate) fn add_member(&mut self, member: Member) {
        if let Some(place) = self.members.get_mut(self.count) {
            *place = member;
            self.count = self.count.saturating_add(1);
        }
    }

    // A claim on a debtor that there is no place for is lost.
    pub(crate) fn put_claim(&mut self, debtor: usize, creditor: usize, units: u32) {
        if let Some(member) = self.members.get_mut(debtor) {
            member.claims.put(creditor, units);
        }
    }

    // The class in each of the 32 places, 0 where nobody was entered.
    pub fn classes(&self) -> [u8; 32] {
        let mut classes = [0; 32];
        for (class, member) in classes.iter_mut().zip(&self.members) {
            *class = member.class;
        }
        classes
    }

    // All claims together.
    pub fn units_of_claims(&self) -> u32 {
        self.members
            .iter()
            .map(|member| member.claims.total())
            .fold(0, u32::saturating_add)
    }
}
