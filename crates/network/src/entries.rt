// Writing one entry of a network's figures, within the limits that they keep to.
ghost use Rattle.std.specs.Prelude.{◌≡◌, ◌<◌, ◌≤◌, ◌≢◌};
ghost use Rattle.network.specs.Entries.{MemberSet, ClaimSet, Blank};

use crate::figures::{Figures, Member};
use crate::member_count::MemberCount;

impl Figures {
    pub(crate) fn blank(count: MemberCount) -> Figures
        ensures { Blank count.n result }
    {
        Figures {
            n: count.get(),
            members: [Member {
                house: 0,
                class: 0,
                endowment: 0,
            }; 32],
            claims: [[0; 32]; 32],
        }
    }

    pub(crate) fn set_member(&mut self, member: u8, entry: Member)
        requires member { member < self.old.n }
        requires class { entry.class ≤ 7 }
        requires endowment { entry.endowment ≤ 1000000 }
        ensures { MemberSet self.old member entry.house entry.class entry.endowment self.new }
    {
        self.members[member as usize] = entry;
    }

    pub(crate) fn set_claim(&mut self, debtor: u8, creditor: u8, units: u32)
        requires debtor { debtor < self.old.n }
        requires creditor { creditor < self.old.n }
        requires apart { debtor ≢ creditor }
        requires small { units ≤ 10000 }
        ensures { ClaimSet self.old debtor creditor units self.new }
    {
        self.claims[debtor as usize][creditor as usize] = units;
    }
}
